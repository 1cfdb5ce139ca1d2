// Certificates, written as texts.

ghost use Rattle.std.specs.Prelude.{◌≡◌, ◌≤◌, ◌++◌, ◌∷◌, [], IfOk, OnOk, Ok, length};
ghost use Rattle.std.specs.String.{string_bytes};
ghost use Rattle.pick_check.specs.Text.{AreWithin, certificate_in, certificate_text, last_lines, net_limits, price_limits, text_of};

use crate::certificate::Certificate;
use crate::push_lines::{push_line, push_savings, push_slots};
use crate::saving::Saving;
use std::alloc::{AllocError, Global};

/// The text of a certificate. It is within the limit, and reading it gives the savings and the certificate again.
pub fn write_certificate(
    alloc: Global,
    savings: &[Saving],
    c: &Certificate,
) -> Result<Vec<u8>, AllocError>
    requires few_savings { length savings.now ≤ 160000 }
    requires few_slots { length c.now.slots ≤ 256 }
    ensures text { IfOk result (λ bytes. bytes.items ≡ certificate_text savings.now c.now) }
    ensures within_limit { IfOk result (λ bytes. length bytes.items ≤ 8388608) }
    ensures reads_back { IfOk result (λ bytes. certificate_in bytes.items ≡ Ok (savings.now, c.now)) }
{
    let mut text = String::from_str(alloc, "zcld certificate 1\n")?;
    push_savings(&mut text, savings)?;
    push_slots(&mut text, &c.slots)?;
    let prices = c.prices;
    push_last(&mut text, prices, c.net)?;
    Ok(text.into_bytes())
}

// Adds the lines of the prices, of the net and of the end.
fn push_last(text: &mut String, prices: [u32; 3], net: u64) -> Result<(), AllocError>
    ensures lines { OnOk result (string_bytes text.new ≡ string_bytes text.old ++ text_of (last_lines prices net)) }
    ensures prices_fit { AreWithin price_limits prices }
    ensures net_fits { AreWithin net_limits (net ∷ []) }
{
    let numbers = [
        u64::from(prices[0]),
        u64::from(prices[1]),
        u64::from(prices[2]),
    ];
    push_line(text, "price", &numbers)?;
    push_line(text, "net", &[net])?;
    text.push_str("end\n")
}
