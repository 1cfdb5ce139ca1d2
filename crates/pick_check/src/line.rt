// The lines of a certificate.

ghost use Rattle.std.specs.Prelude.{◌≡◌, IfSome};
ghost use Rattle.pick_check.specs.Text.{AreWithin, net_in_line, numbers_in, prices_in_line, saving_in_line, slot_in_line};

use crate::saving::Saving;
use text_lines::number::read_number;
use text_lines::split::split_word;
use zc_base::place::Place;

const HALF: u64 = 0xFFFF;

const WORD: u64 = 0xFFFF_FFFF;

/// The saving of a line.
pub fn read_saving(line: &[u8]) -> Option<Saving>
    ensures { result ≡ saving_in_line line.now }
{
    let numbers = read_numbers(line, b"saving", [HALF, HALF, WORD, WORD, WORD])?;
    let target = Place {
        object: numbers[0] as u16,
        section: numbers[1] as u16,
        offset: numbers[2] as u32,
    };
    Some(Saving {
        target,
        jump_sites: numbers[3] as u32,
        call_sites: numbers[4] as u32,
    })
}

/// The slot of a line.
pub fn read_slot(line: &[u8]) -> Option<u32>
    ensures { result ≡ slot_in_line line.now }
{
    let numbers = read_numbers(line, b"slot", [WORD])?;
    Some(numbers[0] as u32)
}

/// The prices of a line.
pub fn read_prices(line: &[u8]) -> Option<[u32; 3]>
    ensures { result ≡ prices_in_line line.now }
{
    let numbers = read_numbers(line, b"price", [WORD, WORD, WORD])?;
    Some([numbers[0] as u32, numbers[1] as u32, numbers[2] as u32])
}

/// The net of a line.
pub fn read_net(line: &[u8]) -> Option<u64>
    ensures { result ≡ net_in_line line.now }
{
    let numbers = read_numbers(line, b"net", [u64::MAX])?;
    Some(numbers[0])
}

// The numbers of a line with this name, one for each limit.
fn read_numbers<const N: usize>(line: &[u8], name: &[u8], limits: [u64; N]) -> Option<[u64; N]>
    ensures value { result ≡ numbers_in name.now limits.entry line.now }
    ensures within { IfSome result (AreWithin limits.entry) }
{
    let (first, behind) = split_word(line);
    if first != name {
        return None;
    }
    let mut numbers = [0; N];
    let mut rest = behind;
    for k in 0..N {
        let (word, others) = split_word(rest?);
        numbers[k] = read_number(word, limits[k])?;
        rest = others;
    }
    if rest.is_some() {
        return None;
    }
    Some(numbers)
}
