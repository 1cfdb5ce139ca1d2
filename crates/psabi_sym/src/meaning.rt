// What names stand for.

ghost use Rattle.std.specs.Prelude.{◌≡◌, ◌&&◌, ◌==◌, ◌<◌, ℕ, All, Option, None, false, not, true, length, map, slice_index_or, [], List};
ghost use Rattle.std.specs.List.{find, range_with_len, zip};
ghost use Rattle.std.specs.Option.{option_map, option_map_or};
ghost use Rattle.psabi_sym.specs.declared.meaning.Meaning.{Meaning};
ghost use Rattle.psabi_sym.specs.declared.meaning.Meaning.TheVariants.{Nothing};
ghost use Rattle.psabi_sym.specs.Invariants.Meanings.{meaning_at, meaning_of, row_is_missing, row_meaning};
ghost use Rattle.psabi_sym.specs.Resolve.{linker_number};
ghost use Rattle.psabi_sym.specs.Invariants.Rows.{first_row, row_defines, row_is_second};
ghost use Rattle.psabi_sym.specs.declared.symbol_row.SymbolRow.{SymbolRow};

use crate::symbol_row::SymbolRow;
use elf32_read::symbol::{GLOBAL, UNDEF};

/// What a name stands for: a symbol that defines it, a number, which is an address of data or a value
/// of the linker's, or nothing.
#[derive(Clone, Copy)]
pub enum Meaning {
    Symbol(SymbolRow),
    Number(u32),
    Nothing,
}

/// The numbers that the linker's own names stand for.
#[derive(Clone, Copy)]
pub struct LinkerNumbers {
    pub global_pointer: u32,
    pub bss_start: u32,
    pub end: u32,
    pub stack_top: u32,
}

// The number of a name of the linker's.
#[tactic(auto, unfolding(crate::specs::Resolve::linker_number))]
fn linker_number(numbers: &LinkerNumbers, name: &[u8]) -> Option<u32>
    ensures { result ≡ linker_number numbers.now name.now }
{
    if name == b"__global_pointer$".as_slice() {
        return Some(numbers.global_pointer);
    }
    if name == b"__bss_start".as_slice() {
        return Some(numbers.bss_start);
    }
    if name == b"_end".as_slice() {
        return Some(numbers.end);
    }
    if name == b"__stack_top".as_slice() {
        return Some(numbers.stack_top);
    }
    None
}

// What a name is, by its first strong definition, its address if it is common, its first weak definition or nothing, and
// its number if it is the linker's.
fn meaning_of(
    strong: Option<SymbolRow>,
    common: Option<u32>,
    weak: Meaning,
    linker: Option<u32>,
) -> Meaning
    ensures { (o : Option SymbolRow) → weak ≡ row_meaning o → result ≡ meaning_of strong common o linker }
{
    if let Some(row) = strong {
        return Meaning::Symbol(row);
    }
    if let Some(address) = common {
        return Meaning::Number(address);
    }
    match (weak, linker) {
        (Meaning::Nothing, Some(number)) => Meaning::Number(number),
        (weak, _) => weak,
    }
}

/// What defines each name, by the name's number: its first strong definition, and its address if it is common.
#[derive(Clone, Copy)]
pub struct NameTables<'a> {
    pub strong: &'a [Option<SymbolRow>],
    pub commons: &'a [Option<u32>],
}

/// What each name is, by tables with an entry for each name. It takes the place of its first weak definition.
pub fn meanings(
    names: &[&[u8]],
    weak: Vec<Meaning>,
    tables: &NameTables<'_>,
    numbers: &LinkerNumbers,
) -> Vec<Meaning>
    requires strong { length tables.now.strong.now ≡ length names.now }
    requires commons { length tables.now.commons.now ≡ length names.now }
    requires weak { length weak.items ≡ length names.now }
    ensures { (found : List (Option SymbolRow)) → weak.items ≡ map row_meaning found
        → result.items ≡ map (meaning_at (map (λ name. name.now) names.now)
        tables.now.strong.now tables.now.commons.now found numbers.now) (range_with_len 0 (length names.now)) }
{
    let mut meanings = weak;
    for k in 0..names.len() {
        let linker = linker_number(numbers, names[k]);
        meanings[k] = meaning_of(tables.strong[k], tables.commons[k], meanings[k], linker);
    }
    meanings
}

// A definition was found, and it is another symbol.
fn is_other(row: &SymbolRow, found: Option<SymbolRow>) -> bool
    ensures { result
        ≡ option_map_or (λ first. not (first.object == row.now.object && first.index == row.now.index)) found false }
{
    match found {
        None => false,
        Some(first) => !(first.object == row.object && first.index == row.index),
    }
}

// The symbol is a strong definition of a name whose first strong definition is another symbol.
fn is_second(row: &SymbolRow, strong: &[Option<SymbolRow>]) -> bool
    requires { row_defines 1 row.now ≡ true → row.now.name < length strong.now }
    ensures { (rows : List SymbolRow) → strong.now ≡ map (first_row 1 rows) (range_with_len 0 (length strong.now))
        → result ≡ row_is_second rows row.now }
{
    if !row.defines(GLOBAL) {
        return false;
    }
    is_other(row, strong[row.name as usize])
}

/// The first strong definition of a name that an earlier symbol defines strongly: its object's index
/// and its own.
pub fn first_duplicate(rows: &[SymbolRow], strong: &[Option<SymbolRow>]) -> Option<(u32, u32)>
    requires named { All (λ r. row_defines 1 r ≡ true → r.name < length strong.now) rows.now }
    requires strong { strong.now ≡ map (first_row 1 rows.now) (range_with_len 0 (length strong.now)) }
    ensures { result ≡ option_map (λ r. (r.object, r.index)) (find (row_is_second rows.now) rows.now) }
{
    for row in rows {
        if is_second(row, strong) {
            return Some((u32::from(row.object), row.index));
        }
    }
    None
}

// The symbol is global and undefined, a relocation names it, and its name stands for nothing.
fn is_missing(row: &SymbolRow, used: bool, meanings: &[Meaning]) -> bool
    requires { (row.now.bind == 1) ≡ true → row.now.name < length meanings.now }
    ensures { result ≡ row_is_missing meanings.now (row.now, used) }
{
    row.bind == GLOBAL
        && row.home == UNDEF
        && used
        && matches!(meanings[row.name as usize], Meaning::Nothing)
}

/// The first symbol that is global and undefined, that a relocation names, and whose name stands for
/// nothing: its object's index and its own.
pub fn first_undefined(
    rows: &[SymbolRow],
    used: &[bool],
    meanings: &[Meaning],
) -> Option<(u32, u32)>
    requires same_length { length used.now ≡ length rows.now }
    requires named { All (λ r. (r.bind == 1) ≡ true → r.name < length meanings.now) rows.now }
    ensures { result
        ≡ option_map (λ e. (e.0.object, e.0.index)) (find (row_is_missing meanings.now) (zip rows.now used.now)) }
{
    for (i, row) in rows.iter().enumerate() {
        if is_missing(row, used[i], meanings) {
            return Some((u32::from(row.object), row.index));
        }
    }
    None
}
