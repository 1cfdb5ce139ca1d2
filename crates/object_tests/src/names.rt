// Names of faults and flags.

use bitflags::Flags;
use elf32_read::fault::Fault;
use elf32_read::image_fault::ImageFault;
use elf32_read::section_flags::SectionFlags;
use std::test::Fail;

#[test]
fn faults_are_shown_by_their_names(rt: HostRuntime) -> Result<(), Fail> {
    let shown = format!(in rt.alloc();
        "{} {} {} {} {} {}",
        Fault::Duplicate { symbol: 5 },
        ImageFault::NotElf,
        ImageFault::Truncated,
        ImageFault::BadSegment,
        ImageFault::BadPlaces,
        ImageFault::TooLarge
    )?;
    assert_eq!(rt;
        shown.as_str(),
        "Duplicate NotElf Truncated BadSegment BadPlaces TooLarge"
    );
    Ok(())
}

#[test]
fn flags_have_the_standard_names_and_bits(rt: HostRuntime) {
    for (name, bits) in [
        ("WRITE", 1),
        ("ALLOC", 2),
        ("EXECINSTR", 4),
        ("TLS", 0x400),
        ("COMPRESSED", 0x800),
    ] {
        assert_eq!(rt;
            SectionFlags::from_name(name).map(|flag| flag.bits),
            Some(bits),
            "{name}"
        );
    }
}
