// The summary of a load.

ghost use Rattle.std.specs.Prelude.{◌≡◌, ◌++◌, ◌∷◌, [], IfOk, OnOk};
ghost use Rattle.std.specs.String.{string_bytes};
ghost use Rattle.load_runner.specs.Summary.{exit_line, exit_lines, number_lines, summary_text};
ghost use Rattle.pick_check.specs.Text.{text_of};

use crate::load::{Exit, Load};
use pick_check::push_lines::push_line;
use std::alloc::{AllocError, Global};

/// The summary of a load, with the number of its functions and of its objects.
pub fn summary(
    alloc: Global,
    functions: u32,
    objects: u64,
    load: &Load,
) -> Result<Vec<u8>, AllocError>
    ensures { IfOk result (λ text. text.items ≡ summary_text functions objects load.now) }
{
    let mut text = String::new(alloc);
    push_line(&mut text, "functions", &[u64::from(functions)])?;
    push_line(&mut text, "objects", &[objects])?;
    push_numbers(&mut text, load)?;
    push_exits(alloc, &mut text, load)?;
    Ok(text.into_bytes())
}

// Adds the lines of a load's numbers.
fn push_numbers(text: &mut String, load: &Load) -> Result<(), AllocError>
    ensures { OnOk result (string_bytes text.new ≡ string_bytes text.old ++ text_of (number_lines load.now)) }
{
    push_line(text, "plain text", &[u64::from(load.plain_text)])?;
    push_line(text, "zc text", &[u64::from(load.zc_text)])?;
    push_line(text, "net", &[load.net])?;
    push_line(text, "steps", &[load.steps])?;
    push_line(text, "commits", &[load.commits])?;
    Ok(())
}

// Adds the lines of a load's exits.
fn push_exits(alloc: Global, text: &mut String, load: &Load) -> Result<(), AllocError>
    ensures { OnOk result (string_bytes text.new ≡ string_bytes text.old ++ text_of (exit_lines load.now)) }
{
    push_exit(alloc, text, "trace", &load.trace)?;
    push_exit(alloc, text, "plain", &load.plain)?;
    push_exit(alloc, text, "zc", &load.zc)?;
    push_exit(alloc, text, "cuts", &load.cuts)
}

// Adds the line of an exit.
fn push_exit(alloc: Global, text: &mut String, name: &str, exit: &Exit) -> Result<(), AllocError>
    ensures { OnOk result (string_bytes text.new
        ≡ string_bytes text.old ++ (exit_line name.now exit.now ++ 10 ∷ [])) }
{
    let digits = hex::encode(alloc, exit.bytes.as_slice())?;
    let status = exit.status;
    text.push_str(name)?;
    text.push_str(" ")?;
    text.push_str(digits.as_str())?;
    write!(text, " {status}")?;
    text.push_str("\n")
}
