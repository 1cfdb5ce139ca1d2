// The names of instructions.

ghost use Rattle.std.specs.Prelude.{◌≡◌};
ghost use Rattle.std.specs.List.{slice_get};
ghost use Rattle.zc_decode.specs.Rows.{form_of};
ghost use Rattle.instruction_text.specs.Names as names;

use crate::operation::Operation;
use rv_decode::instr::{BranchOp, ImmOp, LoadOp, RegOp, StoreOp, UpperOp};
use zc_decode::form::Form;
use zc_decode::row::row;

// The operations of words.
const OPERATIONS: [Operation; 49] = [
    Operation::Upper(UpperOp::Lui),
    Operation::Upper(UpperOp::Auipc),
    Operation::Jal,
    Operation::Jalr,
    Operation::Branch(BranchOp::Beq),
    Operation::Branch(BranchOp::Bne),
    Operation::Branch(BranchOp::Blt),
    Operation::Branch(BranchOp::Bge),
    Operation::Branch(BranchOp::Bltu),
    Operation::Branch(BranchOp::Bgeu),
    Operation::Load(LoadOp::Lb),
    Operation::Load(LoadOp::Lh),
    Operation::Load(LoadOp::Lw),
    Operation::Load(LoadOp::Lbu),
    Operation::Load(LoadOp::Lhu),
    Operation::Store(StoreOp::Sb),
    Operation::Store(StoreOp::Sh),
    Operation::Store(StoreOp::Sw),
    Operation::WithImm(ImmOp::Addi),
    Operation::WithImm(ImmOp::Slti),
    Operation::WithImm(ImmOp::Sltiu),
    Operation::WithImm(ImmOp::Xori),
    Operation::WithImm(ImmOp::Ori),
    Operation::WithImm(ImmOp::Andi),
    Operation::WithImm(ImmOp::Slli),
    Operation::WithImm(ImmOp::Srli),
    Operation::WithImm(ImmOp::Srai),
    Operation::WithReg(RegOp::Add),
    Operation::WithReg(RegOp::Sub),
    Operation::WithReg(RegOp::Sll),
    Operation::WithReg(RegOp::Slt),
    Operation::WithReg(RegOp::Sltu),
    Operation::WithReg(RegOp::Xor),
    Operation::WithReg(RegOp::Srl),
    Operation::WithReg(RegOp::Sra),
    Operation::WithReg(RegOp::Or),
    Operation::WithReg(RegOp::And),
    Operation::WithReg(RegOp::Mul),
    Operation::WithReg(RegOp::Mulh),
    Operation::WithReg(RegOp::Mulhsu),
    Operation::WithReg(RegOp::Mulhu),
    Operation::WithReg(RegOp::Div),
    Operation::WithReg(RegOp::Divu),
    Operation::WithReg(RegOp::Rem),
    Operation::WithReg(RegOp::Remu),
    Operation::Fence,
    Operation::Ecall,
    Operation::Ebreak,
    Operation::Csrrw,
];

// The rows of halfwords, in the tables' order.
const FORMS: [Form; 43] = [
    Form::CAddi4spn,
    Form::CLw,
    Form::CSw,
    Form::CLbu,
    Form::CLhu,
    Form::CLh,
    Form::CSb,
    Form::CSh,
    Form::CNop,
    Form::CAddi,
    Form::CJal,
    Form::CLi,
    Form::CAddi16sp,
    Form::CLui,
    Form::CSrli,
    Form::CSrai,
    Form::CAndi,
    Form::CSub,
    Form::CXor,
    Form::COr,
    Form::CAnd,
    Form::CMul,
    Form::CZextB,
    Form::CNot,
    Form::CJ,
    Form::CBeqz,
    Form::CBnez,
    Form::CSlli,
    Form::CLwsp,
    Form::CJr,
    Form::CMv,
    Form::CEbreak,
    Form::CJalr,
    Form::CAdd,
    Form::CSwsp,
    Form::CmPush,
    Form::CmPop,
    Form::CmPopretz,
    Form::CmPopret,
    Form::CmMvsa01,
    Form::CmMva01s,
    Form::CmJt,
    Form::CmJalt,
];

fn upper_name(op: UpperOp) -> &'static str
    ensures { result.now ≡ names.upper_name op }
{
    match op {
        UpperOp::Lui => "lui",
        UpperOp::Auipc => "auipc",
    }
}

fn branch_name(op: BranchOp) -> &'static str
    ensures { result.now ≡ names.branch_name op }
{
    match op {
        BranchOp::Beq => "beq",
        BranchOp::Bne => "bne",
        BranchOp::Blt => "blt",
        BranchOp::Bge => "bge",
        BranchOp::Bltu => "bltu",
        BranchOp::Bgeu => "bgeu",
    }
}

fn load_name(op: LoadOp) -> &'static str
    ensures { result.now ≡ names.load_name op }
{
    match op {
        LoadOp::Lb => "lb",
        LoadOp::Lh => "lh",
        LoadOp::Lw => "lw",
        LoadOp::Lbu => "lbu",
        LoadOp::Lhu => "lhu",
    }
}

fn store_name(op: StoreOp) -> &'static str
    ensures { result.now ≡ names.store_name op }
{
    match op {
        StoreOp::Sb => "sb",
        StoreOp::Sh => "sh",
        StoreOp::Sw => "sw",
    }
}

fn imm_name(op: ImmOp) -> &'static str
    ensures { result.now ≡ names.imm_name op }
{
    match op {
        ImmOp::Addi => "addi",
        ImmOp::Slti => "slti",
        ImmOp::Sltiu => "sltiu",
        ImmOp::Xori => "xori",
        ImmOp::Ori => "ori",
        ImmOp::Andi => "andi",
        ImmOp::Slli => "slli",
        ImmOp::Srli => "srli",
        ImmOp::Srai => "srai",
    }
}

fn reg_name(op: RegOp) -> &'static str
    ensures { result.now ≡ names.reg_name op }
{
    match op {
        RegOp::Add => "add",
        RegOp::Sub => "sub",
        RegOp::Sll => "sll",
        RegOp::Slt => "slt",
        RegOp::Sltu => "sltu",
        RegOp::Xor => "xor",
        RegOp::Srl => "srl",
        RegOp::Sra => "sra",
        RegOp::Or => "or",
        RegOp::And => "and",
        RegOp::Mul => "mul",
        RegOp::Mulh => "mulh",
        RegOp::Mulhsu => "mulhsu",
        RegOp::Mulhu => "mulhu",
        RegOp::Div => "div",
        RegOp::Divu => "divu",
        RegOp::Rem => "rem",
        RegOp::Remu => "remu",
    }
}

/// The name of an operation.
pub fn operation_name(operation: Operation) -> &'static str
    ensures { result.now ≡ names.operation_name operation }
{
    match operation {
        Operation::Upper(op) => upper_name(op),
        Operation::Jal => "jal",
        Operation::Jalr => "jalr",
        Operation::Branch(op) => branch_name(op),
        Operation::Load(op) => load_name(op),
        Operation::Store(op) => store_name(op),
        Operation::WithImm(op) => imm_name(op),
        Operation::WithReg(op) => reg_name(op),
        Operation::Fence => "fence",
        Operation::Ecall => "ecall",
        Operation::Ebreak => "ebreak",
        Operation::Csrrw => "csrrw",
    }
}

/// The name of a row's halfwords; c.nop is written as the c.addi that it is.
pub fn form_name(form: Form) -> &'static str
    ensures { result.now ≡ names.form_name form }
{
    match form {
        Form::CAddi4spn => "c.addi4spn",
        Form::CLw => "c.lw",
        Form::CSw => "c.sw",
        Form::CLbu => "c.lbu",
        Form::CLhu => "c.lhu",
        Form::CLh => "c.lh",
        Form::CSb => "c.sb",
        Form::CSh => "c.sh",
        Form::CNop | Form::CAddi => "c.addi",
        Form::CJal => "c.jal",
        Form::CLi => "c.li",
        Form::CAddi16sp => "c.addi16sp",
        Form::CLui => "c.lui",
        Form::CSrli => "c.srli",
        Form::CSrai => "c.srai",
        Form::CAndi => "c.andi",
        Form::CSub => "c.sub",
        Form::CXor => "c.xor",
        Form::COr => "c.or",
        Form::CAnd => "c.and",
        Form::CMul => "c.mul",
        Form::CZextB => "c.zext.b",
        Form::CNot => "c.not",
        Form::CJ => "c.j",
        Form::CBeqz => "c.beqz",
        Form::CBnez => "c.bnez",
        Form::CSlli => "c.slli",
        Form::CLwsp => "c.lwsp",
        Form::CJr => "c.jr",
        Form::CMv => "c.mv",
        Form::CEbreak => "c.ebreak",
        Form::CJalr => "c.jalr",
        Form::CAdd => "c.add",
        Form::CSwsp => "c.swsp",
        Form::CmPush => "cm.push",
        Form::CmPop => "cm.pop",
        Form::CmPopretz => "cm.popretz",
        Form::CmPopret => "cm.popret",
        Form::CmMvsa01 => "cm.mvsa01",
        Form::CmMva01s => "cm.mva01s",
        Form::CmJt => "cm.jt",
        Form::CmJalt => "cm.jalt",
    }
}

// The element with this index.
fn form_at(forms: &[Form], index: usize) -> Option<Form>
    ensures { result ≡ slice_get forms.now index }
{
    forms.get(index).copied()
}

/// The row of a halfword.
pub fn form_of_half(half: u16) -> Option<Form>
    ensures { result ≡ form_of half }
{
    form_at(&FORMS, usize::from(row(half)?))
}

// The first of some operations with a name.
fn first_operation(operations: &[Operation], name: &[u8]) -> Option<Operation>
    ensures { result ≡ names.first_named names.operation_name operations.now name.now }
{
    for operation in operations {
        if operation_name(*operation).as_bytes() == name {
            return Some(*operation);
        }
    }
    None
}

// The first of some rows with a name.
fn first_form(forms: &[Form], name: &[u8]) -> Option<Form>
    ensures { result ≡ names.first_named names.form_name forms.now name.now }
{
    for form in forms {
        if form_name(*form).as_bytes() == name {
            return Some(*form);
        }
    }
    None
}

/// The operation with a name.
pub fn operation_named(name: &[u8]) -> Option<Operation>
    ensures { result ≡ names.operation_named name.now }
{
    first_operation(&OPERATIONS, name)
}

/// The first row with a name.
pub fn form_named(name: &[u8]) -> Option<Form>
    ensures { result ≡ names.form_named name.now }
{
    first_form(&FORMS, name)
}
