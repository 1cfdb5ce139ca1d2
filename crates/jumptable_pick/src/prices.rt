// The prices of slots.

ghost use Rattle.std.specs.Prelude.{◌≡◌};
ghost use Rattle.jumptable_pick.specs.Tables.{prices_of, saved_at};

use crate::ranking::Rank;

/// The prices that show that the best of the three candidates is the best of all tables.
pub fn prices_of(jumps: &[Rank], calls: &[Rank]) -> [u32; 3]
    ensures { result ≡ prices_of jumps.now calls.now }
{
    let low = saved_at(32, jumps);
    let high = saved_at(224, calls);
    [low.saturating_sub(4), low, high.saturating_sub(4)]
}

// What the target after the first `n` saves; 0 if there is no such target.
fn saved_at(n: usize, ranks: &[Rank]) -> u32
    ensures { result ≡ saved_at n ranks.now }
{
    match ranks.get(n) {
        Some(rank) => rank.saved.0,
        None => 0,
    }
}
