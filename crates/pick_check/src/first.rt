// Reads the first line of a text, and returns what follows its line feed.

ghost use Rattle.std.specs.Prelude.{◌≡◌, ◌+◌, ◌<◌, ◌≤◌, IfSome, length, drop};
ghost use Rattle.std.specs.Option.{option_map};
ghost use Rattle.pick_check.specs.Text.{net_in_line, only, prices_in_line, read_first, saving_in_line, slot_in_line};
ghost use Rattle.text_lines.specs.Lines.{lines_of};

use crate::line::{read_net, read_prices, read_saving, read_slot};
use crate::saving::Saving;
use text_lines::split::split_line;

/// The saving of the first line.
pub fn first_saving(text: &[u8]) -> Option<(Saving, &[u8])>
    ensures read { option_map (λ r. r.0) result ≡ read_first saving_in_line (lines_of text.now) }
    ensures rest { IfSome result (λ r. lines_of r.1.now ≡ drop 1 (lines_of text.now)) }
    ensures room { IfSome result (λ r. 8 + length r.1.now ≤ length text.now) }
{
    let (line, rest) = split_line(text)?;
    Some((read_saving(line)?, rest))
}

/// The slot of the first line.
pub fn first_slot(text: &[u8]) -> Option<(u32, &[u8])>
    ensures read { option_map (λ r. r.0) result ≡ read_first slot_in_line (lines_of text.now) }
    ensures rest { IfSome result (λ r. lines_of r.1.now ≡ drop 1 (lines_of text.now)) }
    ensures shorter { IfSome result (λ r. length r.1.now < length text.now) }
{
    let (line, rest) = split_line(text)?;
    Some((read_slot(line)?, rest))
}

/// The prices of the first line.
pub fn first_prices(text: &[u8]) -> Option<([u32; 3], &[u8])>
    ensures read { option_map (λ r. r.0) result ≡ read_first prices_in_line (lines_of text.now) }
    ensures rest { IfSome result (λ r. lines_of r.1.now ≡ drop 1 (lines_of text.now)) }
{
    let (line, rest) = split_line(text)?;
    let prices = read_prices(line)?;
    Some((prices, rest))
}

/// The net of the first line.
pub fn first_net(text: &[u8]) -> Option<(u64, &[u8])>
    ensures read { option_map (λ r. r.0) result ≡ read_first net_in_line (lines_of text.now) }
    ensures rest { IfSome result (λ r. lines_of r.1.now ≡ drop 1 (lines_of text.now)) }
{
    let (line, rest) = split_line(text)?;
    Some((read_net(line)?, rest))
}

/// What follows the first line, if that line equals this one.
pub fn behind_line<'a>(text: &'a [u8], wanted: &[u8]) -> Option<&'a [u8]>
    ensures read { option_map (λ _. wanted.now) result ≡ read_first (only wanted.now) (lines_of text.now) }
    ensures rest { IfSome result (λ r. lines_of r.now ≡ drop 1 (lines_of text.now)) }
    ensures shorter { IfSome result (λ r. length r.now < length text.now) }
{
    let (line, rest) = split_line(text)?;
    if line == wanted { Some(rest) } else { None }
}
