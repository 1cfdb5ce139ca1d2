// A console over the standard streams.

ghost use Rattle.std.specs.Prelude.{◌≡◌, false, None};

use crate::console::{Console, ConsoleFault};
use crate::transfer::{read_some, write_whole};
use crate::trouble::Trouble;
use std::io::{Read, Write};

/// The standard streams, or any reader and two writers in their place.
///
/// It doesn't tell the system's streams, whose content is outside this program. If a writer tells its
/// bytes, as one in memory does, so does the console. Nothing is buffered here; whoever passes a writer
/// with a buffer of its own has to flush it.
#[derive(Drop)]
pub struct StdConsole<I, O, E> {
    input: I,
    out: O,
    err: E,
    read_faults: u64,
    write_faults: u64,
    read_memory_faults: u64,
    write_memory_faults: u64,
    taken: u64,
}

impl<I: Read, O: Write, E: Write> StdConsole<I, O, E> {
    /// A console over an input, an output and an output for errors, as a program's standard streams.
    pub fn new(input: I, out: O, err: E) -> StdConsole<I, O, E>
        ensures { ⟦<StdConsole<I, O, E> as Console>⟧.shown result ≡ record {
          input = None;
          out = O.contents out;
          err = E.contents err;
          read_faults = 0;
          write_faults = 0;
          read_memory_faults = 0;
          write_memory_faults = 0;
          taken = 0;
          sure = false;
        } }
    {
        StdConsole {
            input,
            out,
            err,
            read_faults: 0,
            write_faults: 0,
            read_memory_faults: 0,
            write_memory_faults: 0,
            taken: 0,
        }
    }
}

impl<I: Read, O: Write, E: Write> Console for StdConsole<I, O, E> {
    ghost shown = { λ c. record {
      input = None;
      out = O.contents c.out;
      err = E.contents c.err;
      read_faults = c.read_faults;
      write_faults = c.write_faults;
      read_memory_faults = c.read_memory_faults;
      write_memory_faults = c.write_memory_faults;
      taken = c.taken;
      sure = false;
    } };

    /// Reads once. A read that a signal interrupts is made again.
    fn take(&mut self, buf: &mut [u8]) -> Result<usize, ConsoleFault> {
        match read_some(&mut self.input, buf) {
            Ok(count) => {
                self.taken = self.taken.saturating_add(count as u64);
                Ok(count)
            }
            Err(fault) => {
                let trouble = Trouble::from(fault);
                Err(trouble.refuse(&mut self.read_faults, &mut self.read_memory_faults))
            }
        }
    }

    fn out(&mut self, bytes: &[u8]) -> Result<(), ConsoleFault> {
        match write_whole(&mut self.out, bytes) {
            Ok(()) => Ok(()),
            Err(trouble) => {
                Err(trouble.refuse(&mut self.write_faults, &mut self.write_memory_faults))
            }
        }
    }

    fn err(&mut self, bytes: &[u8]) -> Result<(), ConsoleFault> {
        match write_whole(&mut self.err, bytes) {
            Ok(()) => Ok(()),
            Err(trouble) => {
                Err(trouble.refuse(&mut self.write_faults, &mut self.write_memory_faults))
            }
        }
    }
}
