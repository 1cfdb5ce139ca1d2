// A machine that is ready to run: an image is loaded, and the console's whole input was taken, if it is wanted.

ghost use Rattle.std.specs.Prelude.{◌≡◌, IfOk, IfErr};
ghost use Rattle.zc_base.specs.MemMap.{IsMap};
ghost use Rattle.zc_machine.specs.Load.{first_core_of};
ghost use Rattle.zcld.specs.ErrLine.{NamesNothing};
ghost use Rattle.zcld.specs.Input.{TakesUnless};
ghost use Rattle.zcld.specs.Machines.{IsUnready};

use crate::input::take_unless;
use crate::outcome::Outcome;
use elf32_read::image::Image;
use std::alloc::Global;
use zc_machine::machine::Machine;
use zc_outside::console::Console;

/// A machine at the start of an image, and the input that it runs over.
#[derive(Drop)]
pub struct Ready {
    pub machine: Machine,
    pub input: Vec<u8>,
}

/// Takes the console's whole input, unless the answers are given without it, and loads the image, or says how the call
/// ends without them.
pub fn make_ready<C: Console>(
    alloc: Global,
    image: &Image,
    answered: bool,
    console: &mut C,
) -> Result<Ready, Outcome>
    requires { IsMap image.now.1 }
    ensures takes { IfOk result (λ ready.
        TakesUnless answered ready.input.items (C.shown console.old) (C.shown console.new)) }
    ensures loads { IfOk result (λ ready. ready.machine ≡ first_core_of image.now.0 image.now.1) }
    ensures err { IfErr result (λ outcome. IsUnready answered outcome (C.shown console.old) (C.shown console.new)) }
    ensures line { IfErr result NamesNothing }
{
    let input = take_unless(alloc, answered, console)?;
    let machine = Machine::load(alloc, image)?;
    Ok(Ready { machine, input })
}
