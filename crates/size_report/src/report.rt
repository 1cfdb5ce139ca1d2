// The report of a link.

ghost use Rattle.std.specs.Prelude.{◌≡◌, ◌++◌, ◌∷◌, [], IfOk, OnOk};
ghost use Rattle.std.specs.String.{string_bytes};
ghost use Rattle.pick_check.specs.Text.{text_of};
ghost use Rattle.size_report.specs.Report.{count_line, count_lines, fixed_lines, report_text};

use pick_check::certificate::Certificate;
use pick_check::push_lines::{push_line, push_savings, push_slots};
use pick_check::saving::Saving;
use std::alloc::{AllocError, Global};
use zc_base::counts::Counts;

/// What a link counts: with its code as it is, and with smaller code; and, if it is told names of sections that stay as
/// they are, how many such sections there are.
#[derive(Clone, Copy, Debug)]
pub struct LinkCounts {
    pub plain: Counts,
    pub zc: Counts,
    pub fixed: Option<u32>,
}

/// The report of a link. A line feed ends each line: `plain text` and `zc text`, the lengths of both
/// texts in bytes; `items`, `short`, `long`, `push`, `pop`, `move` and `table`, the counts of the Zc
/// link; `slots`, the number of the jump table's slots, holes included; `net`, the bytes that the table
/// saves; the certificate's lines for the savings and the slots; and `fixed`, the number of sections that stay as they
/// are, if the link was told names of such.
pub fn report(
    alloc: Global,
    counts: &LinkCounts,
    savings: &[Saving],
    certificate: &Certificate,
) -> Result<Vec<u8>, AllocError>
    ensures { IfOk result (λ bytes. bytes.items ≡ report_text counts.now savings.now certificate.now) }
{
    let mut text = String::new(alloc);
    push_counts(&mut text, &counts.plain, &counts.zc)?;
    push_line(&mut text, "slots", &[certificate.slots.len() as u64])?;
    push_line(&mut text, "net", &[certificate.net])?;
    push_savings(&mut text, savings)?;
    push_slots(&mut text, &certificate.slots)?;
    push_fixed(&mut text, counts.fixed)?;
    Ok(text.into_bytes())
}

// Adds the line on fixed sections, if there is one.
fn push_fixed(text: &mut String, fixed: Option<u32>) -> Result<(), AllocError>
    ensures { OnOk result (string_bytes text.new ≡ string_bytes text.old ++ text_of (fixed_lines fixed)) }
{
    match fixed {
        Some(count) => push_count(text, "fixed", count),
        None => Ok(()),
    }
}

// Adds the lines of the counts.
fn push_counts(text: &mut String, plain: &Counts, zc: &Counts) -> Result<(), AllocError>
    ensures { OnOk result (string_bytes text.new
        ≡ string_bytes text.old ++ text_of (count_lines plain.now zc.now)) }
{
    push_count(text, "plain text", plain.text)?;
    push_count(text, "zc text", zc.text)?;
    push_count(text, "items", zc.items)?;
    push_count(text, "short", zc.short)?;
    push_count(text, "long", zc.long)?;
    push_count(text, "push", zc.pushes)?;
    push_count(text, "pop", zc.pops)?;
    push_count(text, "move", zc.moves)?;
    push_count(text, "table", zc.table)?;
    Ok(())
}

// Adds the line of a count.
fn push_count(text: &mut String, name: &str, count: u32) -> Result<(), AllocError>
    ensures { OnOk result (string_bytes text.new
        ≡ string_bytes text.old ++ (count_line name.now count ++ 10 ∷ [])) }
{
    push_line(text, name, &[u64::from(count)])
}
