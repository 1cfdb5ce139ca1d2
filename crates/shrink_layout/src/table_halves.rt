// The halfwords of jumps and calls through the table.

ghost use Rattle.std.specs.Prelude.{◌≡◌, ◌^◌, ◌<◌, Some, filter, length};
ghost use Rattle.shrink_layout.specs.Invariants.Numbers.{is_table_half};
ghost use Rattle.zc_decode.specs.declared.short.Short.TheVariants.{TableJump};
ghost use Rattle.zc_encode.specs.Halves.{encoded16};

use zc_decode::short::Short;
use zc_encode::encode16::encode16;

/// The halfword of a jump or call through a slot.
pub fn table_half(slot: u8) -> u16
    ensures { encoded16 (TableJump slot) ≡ Some result }
{
    encode16(Short::TableJump { index: slot }).unwrap()
}

/// Whether a halfword is one of a jump or call through the table, by its bits (RISC-V Zc specification 1.0, "cm.jt" and
/// "cm.jalt").
#[tactic(auto, using(crate::proofs::TableBits::table_bits))]
pub fn is_table_jump(half: u16) -> bool
    ensures { result ≡ is_table_half half }
{
    half / 1024 == 0b101_000 && half % 4 == 0b10
}

/// The number of halfwords that are jumps or calls through the table.
#[tactic(auto, using(crate::proofs::SiteCounts::passed_step))]
pub fn count_table_halves(halves: &[u16]) -> u32
    requires { length halves.now < 2 ^ 32 }
    ensures { result ≡ length (filter is_table_half halves.now) }
{
    let mut count = 0;
    for half in halves {
        if is_table_jump(*half) {
            count += 1;
        }
    }
    count
}
