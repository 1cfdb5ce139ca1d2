// The row of a halfword.

ghost use Rattle.std.specs.Prelude.{◌≡◌};
ghost use Rattle.rv_decode.specs.Decode.{row_of};
ghost use Rattle.zc_decode.specs.Rows as rows;
ghost use Rattle.zc_decode.specs.Rows.{form_of, groups, jump_row, operations, register_rows, zcmp_rows};

use crate::fields::{addi4spn, group_at, lui};
use crate::form::Form;
use rv_decode::bits::field_at;

/// The row that a halfword is of, or none if the tables have none for it.
#[tactic(auto, unfolding(crate::specs::Rows::form_of))]
pub fn form_at(half: u32) -> Option<Form>
    ensures { result ≡ form_of half }
{
    match group_at(half) {
        0b000_00 => unless(addi4spn(half) == 0, Form::CAddi4spn),
        0b010_00 => Some(Form::CLw),
        0b110_00 => Some(Form::CSw),
        0b100_00 => zcb_memory(half),
        0b000_01 => Some(addi(half)),
        0b001_01 => Some(Form::CJal),
        0b010_01 => Some(Form::CLi),
        0b011_01 => lui_or_addi16sp(half),
        0b100_01 => operation(half),
        0b101_01 => Some(Form::CJ),
        0b110_01 => Some(Form::CBeqz),
        0b111_01 => Some(Form::CBnez),
        0b000_10 => unless(field_at(half, 12, 1) == 1, Form::CSlli),
        0b010_10 => unless(field_at(half, 7, 5) == 0, Form::CLwsp),
        0b100_10 => jump(half),
        0b101_10 => zcmp(half),
        0b110_10 => Some(Form::CSwsp),
        _ => None,
    }
}

// What isn't reserved is of the row.
fn unless(reserved: bool, form: Form) -> Option<Form>
    ensures { result ≡ rows.unless reserved form }
{
    if reserved { None } else { Some(form) }
}

// Zcb's loads and stores.
fn zcb_memory(half: u32) -> Option<Form>
    ensures { row_of (groups half) 0b100_00 ≡ Some result }
{
    match field_at(half, 10, 3) << 1 | field_at(half, 6, 1) {
        0b000_0 | 0b000_1 => Some(Form::CLbu),
        0b001_0 => Some(Form::CLhu),
        0b001_1 => Some(Form::CLh),
        0b010_0 | 0b010_1 => Some(Form::CSb),
        0b011_0 => Some(Form::CSh),
        _ => None,
    }
}

fn addi(half: u32) -> Form
    ensures { row_of (groups half) 0b000_01 ≡ Some (Some result) }
{
    if field_at(half, 7, 5) == 0 {
        Form::CNop
    } else {
        Form::CAddi
    }
}

fn lui_or_addi16sp(half: u32) -> Option<Form>
    ensures { row_of (groups half) 0b011_01 ≡ Some result }
{
    if lui(half) == 0 {
        None
    } else if field_at(half, 7, 5) == 2 {
        Some(Form::CAddi16sp)
    } else {
        Some(Form::CLui)
    }
}

// Operations on registers of x8 to x15.
fn operation(half: u32) -> Option<Form>
    ensures { row_of (groups half) 0b100_01 ≡ Some result }
{
    match field_at(half, 10, 2) {
        0b00 => unless(field_at(half, 12, 1) == 1, Form::CSrli),
        0b01 => unless(field_at(half, 12, 1) == 1, Form::CSrai),
        0b10 => Some(Form::CAndi),
        _ => on_registers(half),
    }
}

// Operations on two registers, and Zcb's on one.
fn on_registers(half: u32) -> Option<Form>
    ensures { row_of (operations half) 0b11 ≡ Some result }
{
    match field_at(half, 12, 1) << 2 | field_at(half, 5, 2) {
        0b0_00 => Some(Form::CSub),
        0b0_01 => Some(Form::CXor),
        0b0_10 => Some(Form::COr),
        0b0_11 => Some(Form::CAnd),
        0b1_10 => Some(Form::CMul),
        0b1_11 => zcb_unary(half),
        _ => None,
    }
}

// Zcb's operations on one register.
fn zcb_unary(half: u32) -> Option<Form>
    ensures { row_of (register_rows half) 0b1_11 ≡ Some result }
{
    match field_at(half, 2, 3) {
        0b000 => Some(Form::CZextB),
        0b101 => Some(Form::CNot),
        _ => None,
    }
}

// Jumps to registers, moves and sums.
fn jump(half: u32) -> Option<Form>
    ensures { result ≡ jump_row half }
{
    let first = field_at(half, 7, 5);
    let second = field_at(half, 2, 5);
    match (field_at(half, 12, 1), first, second) {
        (0, 0, 0) => None,
        (0, _, 0) => Some(Form::CJr),
        (0, _, _) => Some(Form::CMv),
        (_, 0, 0) => Some(Form::CEbreak),
        (_, _, 0) => Some(Form::CJalr),
        (_, _, _) => Some(Form::CAdd),
    }
}

// Pushes and pops, moves, and table jumps.
fn zcmp(half: u32) -> Option<Form>
    ensures { row_of (groups half) 0b101_10 ≡ Some result }
{
    match field_at(half, 10, 3) {
        0b000 => Some(table_jump(half)),
        0b011 => moves(half),
        0b110 | 0b111 => push_or_pop(half),
        _ => None,
    }
}

fn table_jump(half: u32) -> Form
    ensures { row_of (zcmp_rows half) 0b000 ≡ Some (Some result) }
{
    if field_at(half, 2, 8) < 32 {
        Form::CmJt
    } else {
        Form::CmJalt
    }
}

fn moves(half: u32) -> Option<Form>
    ensures { row_of (zcmp_rows half) 0b011 ≡ Some result }
{
    match field_at(half, 5, 2) {
        0b01 => unless(field_at(half, 7, 3) == field_at(half, 2, 3), Form::CmMvsa01),
        0b11 => Some(Form::CmMva01s),
        _ => None,
    }
}

fn push_or_pop(half: u32) -> Option<Form>
    ensures { row_of (zcmp_rows half) 0b110 ≡ Some result }
{
    if field_at(half, 4, 4) < 4 {
        return None;
    }
    match field_at(half, 8, 5) {
        0b11000 => Some(Form::CmPush),
        0b11010 => Some(Form::CmPop),
        0b11100 => Some(Form::CmPopretz),
        0b11110 => Some(Form::CmPopret),
        _ => None,
    }
}
