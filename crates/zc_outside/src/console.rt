// What a console promises.

ghost use Rattle.std.specs.Prelude.{◌≡◌, ◌≤◌, ◌+◌, ◌-◌, ◌^◌, min, [], length, IsOk, IfOk, IfErr, OnOk, OnErr};
ghost use Rattle.zc_outside.specs.Desk.{Desk, OnlyTakes, OnlyWrites, TakeCause, WriteCause};
ghost use Rattle.zc_outside.specs.Streams.{Adds, AddsPart, KeepsBytes, Takes};

use thiserror::Error;

/// Why a console refuses.
#[derive(Clone, Copy, PartialEq, Eq, Debug, Error)]
pub enum ConsoleFault {
    #[error("the console can't be read or written")]
    Failed,
    #[error("out of memory")]
    OutOfMemory,
}

/// An input and two outputs, and how often reading and writing them went wrong.
///
/// A console shows a `Desk`. It tells a stream if the `Desk` has the stream's bytes: those left of the
/// input, or those written so far to an output. If it doesn't, no clause says what they are. A console
/// that is sure stays so, and returns `Failed` from no call. The counts are 64-bit counters that never
/// fall and stop at their largest value: `read_faults` and `write_faults` count the calls that return
/// `Failed`, `read_memory_faults` and `write_memory_faults` those that run out of memory, and `taken`
/// the bytes that left the input.
pub trait Console {
    ghost shown: { Self → Desk };

    /// Reads up to a buffer's length of input to its start, and returns the number of bytes.
    ///
    /// After a refusal the buffer may hold anything.
    fn take(&mut self, buf: &mut [u8]) -> Result<usize, ConsoleFault>
        ensures within { IfOk result (λ n. n ≤ length buf.old) }
        ensures bytes { IfOk result (λ n. Takes (shown self.old).input (shown self.new).input buf.old buf.new n) }
        ensures count { IfOk result (λ n. (shown self.new).taken ≡ min ((shown self.old).taken + n) (2 ^ 64 - 1)) }
        ensures err { OnErr result (KeepsBytes (shown self.old).input (shown self.new).input) }
        ensures err_count { OnErr result ((shown self.new).taken ≡ (shown self.old).taken) }
        ensures cause { IfErr result (TakeCause (shown self.old) (shown self.new)) }
        ensures takes { OnlyTakes (shown self.old) (shown self.new) };

    /// Writes a piece to the output.
    fn out(&mut self, bytes: &[u8]) -> Result<(), ConsoleFault>
        ensures ok { OnOk result (Adds (shown self.old).out (shown self.new).out bytes.now) }
        ensures err { OnErr result (AddsPart (shown self.old).out (shown self.new).out bytes.now) }
        ensures empty { bytes.now ≡ [] → IsOk result }
        ensures cause { IfErr result (WriteCause (shown self.old) (shown self.new)) }
        ensures err_stays { KeepsBytes (shown self.old).err (shown self.new).err }
        ensures writes { OnlyWrites (shown self.old) (shown self.new) };

    /// Writes a piece to the output for errors.
    fn err(&mut self, bytes: &[u8]) -> Result<(), ConsoleFault>
        ensures ok { OnOk result (Adds (shown self.old).err (shown self.new).err bytes.now) }
        ensures err { OnErr result (AddsPart (shown self.old).err (shown self.new).err bytes.now) }
        ensures empty { bytes.now ≡ [] → IsOk result }
        ensures cause { IfErr result (WriteCause (shown self.old) (shown self.new)) }
        ensures out_stays { KeepsBytes (shown self.old).out (shown self.new).out }
        ensures writes { OnlyWrites (shown self.old) (shown self.new) };
}
