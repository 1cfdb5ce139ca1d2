// A report, byte for byte: the counts are all different, and the certificate has a hole.

use pick_check::certificate::Certificate;
use pick_check::saving::Saving;
use size_report::report::{LinkCounts, report};
use std::alloc::{AllocError, Global};
use std::test::Fail;
use zc_base::counts::Counts;
use zc_base::place::Place;

const PLAIN: Counts = Counts {
    text: 4492,
    items: 1123,
    short: 0,
    long: 0,
    pushes: 0,
    pops: 0,
    moves: 0,
    table: 0,
};

const ZC: Counts = Counts {
    text: 4466,
    items: 1123,
    short: 2,
    long: 3,
    pushes: 4,
    pops: 5,
    moves: 6,
    table: 20,
};

const SAVING: Saving = Saving {
    target: Place {
        object: 1,
        section: 2,
        offset: 4294967292,
    },
    jump_sites: 7,
    call_sites: 50,
};

const REPORT: &str = "\
plain text 4492\nzc text 4466\nitems 1123\nshort 2\nlong 3\npush 4\npop 5\nmove 6\ntable 20\nslots 2\nnet 24\n\
saving 1 2 4294967292 7 50\nslot 0\nslot 1\n";

// A hole, and a slot for the one saving.
fn certificate(alloc: Global) -> Result<Certificate, AllocError> {
    Ok(Certificate {
        slots: Vec::from_slice(alloc, &[0, 1])?,
        prices: [1, 2, 3],
        net: 24,
    })
}

#[test]
fn a_report_ends_with_the_number_of_fixed_sections_if_it_is_told(
    rt: HostRuntime,
) -> Result<(), Fail> {
    let certificate = certificate(rt.alloc())?;
    for (count, line) in [(0, "fixed 0\n"), (4294967295, "fixed 4294967295\n")] {
        let counts = LinkCounts {
            plain: PLAIN,
            zc: ZC,
            fixed: Some(count),
        };
        let text = report(rt.alloc(), &counts, &[SAVING], &certificate)?;
        let rest = str::from_utf8(text.as_slice())?.strip_prefix(REPORT);
        assert_eq!(rt; rest, Some(line));
    }
    Ok(())
}

#[test]
fn a_report_has_its_counts_and_the_lines_of_the_certificate(rt: HostRuntime) -> Result<(), Fail> {
    let certificate = certificate(rt.alloc())?;
    let counts = LinkCounts {
        plain: PLAIN,
        zc: ZC,
        fixed: None,
    };
    let text = report(rt.alloc(), &counts, &[SAVING], &certificate)?;
    assert_eq!(rt; str::from_utf8(text.as_slice())?, REPORT);
    Ok(())
}
