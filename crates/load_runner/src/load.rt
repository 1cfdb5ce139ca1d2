// The result of a load: objects linked both ways, their program traced, and both images run.

use std::marker::Model;

/// How a program exited: what it had written to its output, and its status.
#[derive(Drop)]
pub struct Exit {
    pub bytes: Vec<u8>,
    pub status: u8,
}

impl Model for Exit {
    ghost use Rattle.zc_outside.specs.Course.{Exit as ExitOf};

    ghost Value = { ExitOf };

    ghost view = { λ exit. record { bytes = exit.bytes.items; status = exit.status } };
}

/// The lengths of both texts in bytes, what the Zc image's jump table saves by its certificate, and how the program
/// exited.
///
/// `trace` is the exit in the symbolic machine, after `steps` steps. The other exits are made by images: `plain` by the
/// plain image, `zc` by the Zc image, after `commits` commits, and `cuts` by the Zc image under interrupts. The exit is
/// counted as the last step or commit.
#[derive(Drop)]
pub struct Load {
    pub plain_text: u32,
    pub zc_text: u32,
    pub net: u64,
    pub steps: u64,
    pub commits: u64,
    pub trace: Exit,
    pub plain: Exit,
    pub zc: Exit,
    pub cuts: Exit,
}
