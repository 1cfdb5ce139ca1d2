// How a call of the program ends.

ghost use Rattle.std.specs.Prelude.{◌≡◌};
ghost use Rattle.zcld.specs.ErrLine.{status_of};

use devices::fault::DevicesFault;
use elf32_read::fault::Fault;
use elf32_read::image_fault::ImageFault;
use interrupt_plan::fault::PlanFault;
use load_runner::load_end::LoadEnd;
use pick_check::fault::CertFault;
use psabi_sym::link_fault::LinkFault;
use section_gc::gc_fault::GcFault;
use std::alloc::AllocError;
use sym_machine::why::Why;
use tail_merge::merge_fault::MergeFault;
use zc_base::place::Place;
use zc_machine::reason::Reason;
use zc_outside::read_files::ReadFault;

/// What is wrong with a file that isn't an object: it is no image, names no devices, is no plan or no certificate, or
/// it is a certificate that isn't accepted.
#[derive(Clone, Copy, PartialEq, Eq, Debug)]
pub enum FileFault {
    Image(ImageFault),
    Devices(DevicesFault),
    Plan(PlanFault),
    Certificate(CertFault),
    Rejected,
}

/// How a call ends. A refusal names the object, by its index among those of the command line, and the first fault in
/// it. `Broken` names an object and its first fault in the same way, of objects that have no fault but would have one
/// without the code that nothing reaches, or with equal ends of functions shared. A stop names the reason and the program
/// counter, a program that is stuck the place and the reason.
#[derive(Clone, Copy, PartialEq, Eq, Debug)]
pub enum Outcome {
    Done,
    Exited(u8),
    Usage,
    Refused(u32, Fault),
    Broken(u32, Fault),
    ReadFault,
    WriteFault,
    OutOfMemory,
    BadFile(FileFault),
    Stopped(Reason, u32),
    Stuck(Place, Why),
    Spent,
}

impl From<AllocError> for Outcome {
    ghost use Rattle.std.specs.Prelude.{◌≡◌};
    ghost use Rattle.zcld.specs.declared.outcome.Outcome.TheVariants.{OutOfMemory};

    ghost from_gives = { λ _ outcome. outcome ≡ OutOfMemory };

    fn from(_refused: AllocError) -> Outcome {
        Outcome::OutOfMemory
    }
}

impl From<ReadFault> for Outcome {
    ghost use Rattle.std.specs.Prelude.{◌≡◌};
    ghost use Rattle.zcld.specs.Outcome.{read_outcome};

    ghost from_gives = { λ fault outcome. outcome ≡ read_outcome fault };

    fn from(fault: ReadFault) -> Outcome {
        match fault {
            ReadFault::Unread => Outcome::ReadFault,
            ReadFault::OutOfMemory => Outcome::OutOfMemory,
        }
    }
}

impl From<LinkFault> for Outcome {
    ghost use Rattle.std.specs.Prelude.{◌≡◌};
    ghost use Rattle.zcld.specs.Outcome.{link_outcome};

    ghost from_gives = { λ fault outcome. outcome ≡ link_outcome fault };

    fn from(fault: LinkFault) -> Outcome {
        match fault {
            LinkFault::Object { index, fault } => Outcome::Refused(index, fault),
            LinkFault::OutOfMemory => Outcome::OutOfMemory,
        }
    }
}

impl From<GcFault> for Outcome {
    ghost use Rattle.std.specs.Prelude.{◌≡◌};
    ghost use Rattle.zcld.specs.Outcome.{gc_outcome};

    ghost from_gives = { λ fault outcome. outcome ≡ gc_outcome fault };

    fn from(fault: GcFault) -> Outcome {
        match fault {
            GcFault::Object { index, fault } => Outcome::Refused(index, fault),
            GcFault::Broken { index, fault } => Outcome::Broken(index, fault),
            GcFault::OutOfMemory => Outcome::OutOfMemory,
        }
    }
}

impl From<MergeFault> for Outcome {
    ghost use Rattle.std.specs.Prelude.{◌≡◌};
    ghost use Rattle.zcld.specs.Outcome.{merge_outcome};

    ghost from_gives = { λ fault outcome. outcome ≡ merge_outcome fault };

    fn from(fault: MergeFault) -> Outcome {
        match fault {
            MergeFault::Object { index, fault } => Outcome::Refused(index, fault),
            MergeFault::Broken { index, fault } => Outcome::Broken(index, fault),
            MergeFault::OutOfMemory => Outcome::OutOfMemory,
        }
    }
}

impl From<PlanFault> for Outcome {
    ghost use Rattle.std.specs.Prelude.{◌≡◌};
    ghost use Rattle.zcld.specs.Outcome.{plan_outcome};

    ghost from_gives = { λ fault outcome. outcome ≡ plan_outcome fault };

    fn from(fault: PlanFault) -> Outcome {
        match fault {
            PlanFault::OutOfMemory => Outcome::OutOfMemory,
            PlanFault::BadLine { .. } | PlanFault::OutOfOrder { .. } | PlanFault::TooLarge => {
                Outcome::BadFile(FileFault::Plan(fault))
            }
        }
    }
}

impl From<DevicesFault> for Outcome {
    ghost use Rattle.std.specs.Prelude.{◌≡◌};
    ghost use Rattle.zcld.specs.Outcome.{devices_outcome};

    ghost from_gives = { λ fault outcome. outcome ≡ devices_outcome fault };

    fn from(fault: DevicesFault) -> Outcome {
        match fault {
            DevicesFault::OutOfMemory => Outcome::OutOfMemory,
            DevicesFault::Line(_) | DevicesFault::Size => {
                Outcome::BadFile(FileFault::Devices(fault))
            }
        }
    }
}

impl From<CertFault> for Outcome {
    ghost use Rattle.std.specs.Prelude.{◌≡◌};
    ghost use Rattle.zcld.specs.Outcome.{certificate_outcome};

    ghost from_gives = { λ fault outcome. outcome ≡ certificate_outcome fault };

    fn from(fault: CertFault) -> Outcome {
        match fault {
            CertFault::OutOfMemory => Outcome::OutOfMemory,
            CertFault::BadLine { .. } | CertFault::TooLarge => {
                Outcome::BadFile(FileFault::Certificate(fault))
            }
        }
    }
}

impl From<LoadEnd> for Outcome {
    ghost use Rattle.std.specs.Prelude.{◌≡◌};
    ghost use Rattle.zcld.specs.Outcome.{load_outcome};

    ghost from_gives = { λ end outcome. outcome ≡ load_outcome end };

    fn from(end: LoadEnd) -> Outcome {
        match end {
            LoadEnd::Stuck(place, why) => Outcome::Stuck(place, why),
            LoadEnd::Spent => Outcome::Spent,
            LoadEnd::OutOfMemory => Outcome::OutOfMemory,
        }
    }
}

/// The status that the program ends with.
pub fn status(outcome: &Outcome) -> u8
    ensures { result ≡ status_of outcome.now }
{
    match outcome {
        Outcome::Done => 0,
        Outcome::Exited(code) => exit_status(*code),
        Outcome::Broken(..) => 119,
        Outcome::Usage => 120,
        Outcome::Refused(..) => 121,
        Outcome::ReadFault => 122,
        Outcome::WriteFault => 123,
        Outcome::OutOfMemory => 124,
        Outcome::BadFile(_) => 125,
        Outcome::Stopped(..) => 126,
        Outcome::Stuck(..) => 126,
        Outcome::Spent => 127,
    }
}

// An exit's status; those from 118 on are kept for `zcld` itself.
fn exit_status(code: u8) -> u8
    ensures { result ≡ status_of (Outcome.Exited code) }
{
    if code < 118 { code } else { 118 }
}
