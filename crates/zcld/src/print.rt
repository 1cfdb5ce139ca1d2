// What a command writes to standard output at its end.

ghost use Rattle.zc_outside.specs.Desk.{OnlyWrites};
ghost use Rattle.zc_outside.specs.Shelf.{Shelf};
ghost use Rattle.zc_outside.specs.World.{world};
ghost use Rattle.zcld.specs.ErrLine.{NamesNothing};
ghost use Rattle.zcld.specs.Puts.{PutsInTurn, text_alone};

use crate::outcome::Outcome;
use zc_outside::console::{Console, ConsoleFault};

/// Writes a line to standard output, and says how that ended.
pub fn print_line<C: Console>(line: &str, console: &mut C) -> Outcome
    ensures done { (shelf : Shelf) → PutsInTurn result (text_alone line.now)
        (world shelf (C.shown console.old)) (world shelf (C.shown console.new)) }
    ensures writes { OnlyWrites (C.shown console.old) (C.shown console.new) }
    ensures line { NamesNothing result }
{
    print_text(line.as_bytes(), console)
}

/// Writes a text to standard output, and says how that ended.
pub fn print_text<C: Console>(text: &[u8], console: &mut C) -> Outcome
    ensures done { (shelf : Shelf) → PutsInTurn result (text_alone text.now)
        (world shelf (C.shown console.old)) (world shelf (C.shown console.new)) }
    ensures writes { OnlyWrites (C.shown console.old) (C.shown console.new) }
    ensures line { NamesNothing result }
{
    match console.out(text) {
        Ok(()) => Outcome::Done,
        Err(ConsoleFault::Failed) => Outcome::WriteFault,
        Err(ConsoleFault::OutOfMemory) => Outcome::OutOfMemory,
    }
}
