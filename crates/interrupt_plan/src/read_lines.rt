// Texts of plans, with cells or without.

ghost use Rattle.std.specs.Prelude.{◌≡◌, ◌⊎◌, ◌≤◌, IfOk, IfErr, Ok, Err, length, map};
ghost use Rattle.std.specs.Option.{option_map};
ghost use Rattle.interrupt_plan.specs.Text.{entries_by, entries_of_lines, line_entry};
ghost use Rattle.text_lines.specs.Lines.{lines_of};

use crate::fault::PlanFault;
use crate::from_line::FromLine;
use crate::line::read_cut;
use crate::read_plan::PLAN_LIMIT;
use std::alloc::{AllocError, Global};
use text_lines::split::split_line;

/// What is kept of a text's lines, or the first fault in the text, with the number of its line.
pub fn read_text<K: FromLine>(alloc: Global, text: &[u8]) -> Result<Vec<K>, PlanFault>
    ensures ok { IfOk result (λ cuts. entries_by K.grammar text.now ≡ Ok (map K.entry cuts.items)) }
    ensures err { IfErr result (λ fault. (fault ≡ PlanFault.OutOfMemory)
        ⊎ (entries_by K.grammar text.now ≡ Err fault)) }
    ensures few { IfOk result (λ cuts. length cuts.items ≤ PLAN_LIMIT) }
{
    if text.len() > PLAN_LIMIT {
        return Err(PlanFault::TooLarge);
    }
    let Some((title, lines)) = split_line(text) else {
        return Err(PlanFault::BadLine { number: 1 });
    };
    if title != K::title() {
        return Err(PlanFault::BadLine { number: 1 });
    }
    read_lines(alloc, lines)
}

// What is kept of the lines after the first one.
fn read_lines<K: FromLine>(alloc: Global, lines: &[u8]) -> Result<Vec<K>, PlanFault>
    requires { length lines.now ≤ PLAN_LIMIT }
    ensures ok { IfOk result (λ cuts. entries_of_lines K.grammar 2 0 (lines_of lines.now)
        ≡ Ok (map K.entry cuts.items)) }
    ensures err { IfErr result (λ fault. (fault ≡ PlanFault.OutOfMemory)
        ⊎ (entries_of_lines K.grammar 2 0 (lines_of lines.now) ≡ Err fault)) }
    ensures few { IfOk result (λ cuts. length cuts.items ≤ length lines.now) }
{
    let mut cuts = Vec::new(alloc);
    let mut rest = lines;
    let mut number = 2;
    let mut low = 0;
    while !rest.is_empty() {
        let Some((line, behind)) = split_line(rest) else {
            return Err(PlanFault::BadLine { number });
        };
        let Some(cut) = read_line::<K>(alloc, line)? else {
            return Err(PlanFault::BadLine { number });
        };
        let at = cut.commit();
        if at < low {
            return Err(PlanFault::OutOfOrder { number });
        }
        low = at;
        if cuts.push(cut).is_err() {
            return Err(PlanFault::OutOfMemory);
        }
        rest = behind;
        number += 1;
    }
    Ok(cuts)
}

// What is kept of a line.
fn read_line<K: FromLine>(alloc: Global, line: &[u8]) -> Result<Option<K>, AllocError>
    ensures { IfOk result (λ cut. option_map K.entry cut ≡ line_entry K.grammar line.now) }
{
    match read_cut(alloc, line)? {
        Some(cut) => Ok(K::from_line(cut)),
        None => Ok(None),
    }
}
