// Which halfwords a chip has, as LLVM's disassembler has them.

use crate::halfwords::mix;
use zc_base::extensions::Extensions;
use zc_decode::extensions::has_half;

// How many halfwords a chip with these extensions has, and a hash of them.
fn halfwords_of(zcb: bool, zcmp: bool, zcmt: bool) -> (u32, u32) {
    let extensions = Extensions { zcb, zcmp, zcmt };
    let (mut count, mut sum) = (0_u32, 0);
    for half in 0..=u16::MAX {
        if has_half(extensions, half) {
            count = count.wrapping_add(1);
            sum = mix(sum, u32::from(half));
        }
    }
    (count, sum)
}

// `scripts/halfwords_of_llvm` prints these numbers for chips with C, and with one more or none.
#[test]
fn a_chip_has_the_halfwords_that_llvm_reads_for_it(rt: HostRuntime) {
    assert_eq!(rt; halfwords_of(false, false, false), (28823, 0x143F_B6B8));
    assert_eq!(rt; halfwords_of(true, false, false), (29799, 0x8632_0E58));
    assert_eq!(rt; halfwords_of(false, true, false), (29135, 0x8BFA_E170));
    assert_eq!(rt; halfwords_of(false, false, true), (29079, 0x45BE_6BB8));
}
