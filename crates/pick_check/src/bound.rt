// The bound by prices.

ghost use Rattle.std.specs.Prelude.{◌≡◌, ◌*◌, ◌<◌, ◌≤◌, ◌^◌, length};
ghost use Rattle.pick_check.specs.Best.{NoneSavesMore};
ghost use Rattle.pick_check.specs.Bound.{bound_of, excess};

use crate::part::Part;
use crate::saving::Saving;

// The sum, over all targets, of what each saves in this part above the price.
fn excess(part: Part, price: u64, savings: &[Saving]) -> u64
    requires { length savings.now ≤ 1048576 }
    ensures value { result ≡ excess part price savings.now }
    ensures below { result ≤ 2 ^ 33 * length savings.now }
{
    let mut excess = 0;
    for saving in savings {
        excess += part.saved_by(saving).saturating_sub(price);
    }
    excess
}

/// The bound by three prices of a slot: one for jumps in a table without calls, and one each for jumps and for calls
/// in a table with both.
pub fn bound_of(savings: &[Saving], prices: [u32; 3]) -> u64
    requires { length savings.now ≤ 1048576 }
    ensures value { result ≡ bound_of savings.now prices }
    // whatever the prices, no assignment saves more than the bound
    ensures never_passed { NoneSavesMore savings.now result }
{
    let jump = u64::from(prices[0]);
    let low = u64::from(prices[1]);
    let high = u64::from(prices[2]);
    let jumps = excess(Part::Jumps, 4 + jump, savings) + 32 * jump;
    let both = excess(Part::Jumps, low, savings)
        + 32 * low
        + excess(Part::Calls, 4 + high, savings)
        + 224 * high;
    jumps.saturating_sub(12).max(both.saturating_sub(140))
}
