// Lines and statuses that the tests of commands don't have.

use devices::fault::DevicesFault;
use elf32_read::fault::Fault;
use elf32_read::image_fault::ImageFault;
use interrupt_plan::fault::PlanFault;
use pick_check::fault::CertFault;
use sym_machine::why::Why;
use zc_base::place::Place;
use zc_machine::reason::Reason;
use zcld::err_line::line_of;
use zcld::outcome::{FileFault, Outcome, status};

const PLACE: Place = Place {
    object: 1,
    section: 2,
    offset: 0xFFFF_FFFC,
};

// Statuses from 118 on are kept for `zcld` itself.
const ROWS: [(Outcome, &str, u8); 13] = [
    (Outcome::Exited(117), "exited 117\n", 117),
    (Outcome::Exited(118), "exited 118\n", 118),
    (Outcome::Exited(119), "exited 119\n", 118),
    (
        Outcome::Broken(4_294_967_295, Fault::TooLarge),
        "broken 4294967295 17 TooLarge\n",
        119,
    ),
    (
        Outcome::Broken(0, Fault::BadTarget { section: 2, at: 4 }),
        "broken 0 14 BadTarget\n",
        119,
    ),
    (Outcome::OutOfMemory, "out of memory\n", 124),
    (
        Outcome::BadFile(FileFault::Image(ImageFault::TooLarge)),
        "bad image 5\n",
        125,
    ),
    (
        Outcome::BadFile(FileFault::Devices(DevicesFault::Size)),
        "bad devices size\n",
        125,
    ),
    (
        Outcome::BadFile(FileFault::Plan(PlanFault::TooLarge)),
        "bad plan size\n",
        125,
    ),
    (
        Outcome::BadFile(FileFault::Certificate(CertFault::TooLarge)),
        "bad certificate size\n",
        125,
    ),
    (
        Outcome::Stopped(Reason::Misaligned, 0xFEDC_BA98),
        "stopped 3 Misaligned fedcba98\n",
        126,
    ),
    (
        Outcome::Stopped(Reason::Break, 0x7654_3210),
        "stopped 4 Break 76543210\n",
        126,
    ),
    (
        Outcome::Stuck(PLACE, Why::ConditionUnknown),
        "stuck 1 2 4294967292 2 ConditionUnknown\n",
        126,
    ),
];

#[test]
fn other_outcomes_have_their_lines_and_statuses(rt: HostRuntime) {
    for (outcome, line, want) in &ROWS {
        let text = line_of(outcome);
        assert!(rt; (text.as_str(), status(outcome)) == (*line, *want));
    }
}
