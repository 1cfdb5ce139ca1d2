// A console in memory, some of whose calls fail.

ghost use Rattle.std.specs.Prelude.{◌≡◌, ◌≢◌, ◌≤◌, ◌+◌, ◌-◌, ◌^◌, ◌↔◌, ◌++◌, min, [], Some, Err, length, take, drop, Contains, IfOk, IfErr, IsOk, IsErr, OnOk, OnErr, IsErrOf};
ghost use Rattle.zc_outside.specs.Calls.{more, next_call};
ghost use Rattle.zc_outside.specs.MemConsole.{after_take, after_write, appended, desk_of};

use crate::calls::NumberedCalls;
use crate::console::{Console, ConsoleFault};
use std::alloc::{AllocError, Global};
use std::marker::Model;

/// An input and two outputs in memory.
///
/// The calls of `take`, `out` and `err` are numbered together, from 0; those whose numbers were given
/// to `new` fail and move nothing. Numbers stop at 2^32 - 1, which all later calls have too. A call of
/// `out` or `err` with an empty piece has no number.
#[derive(Drop)]
pub struct MemConsole {
    input: Vec<u8>,
    at: usize,
    out: Vec<u8>,
    err: Vec<u8>,
    calls: NumberedCalls,
    read_faults: u64,
    write_faults: u64,
    write_memory_faults: u64,
    taken: u64,
}

impl Model for MemConsole {
    ghost use Rattle.std.specs.Prelude.{◌≤◌, drop, length};
    ghost use Rattle.zc_outside.specs.MemConsole.{ConsoleState};

    ghost Value = { ConsoleState };

    ghost view = { λ c. record {
      input = drop c.at c.input.items;
      out = c.out.items;
      err = c.err.items;
      fails = c.calls.failing.items;
      calls = c.calls.made;
      read_faults = c.read_faults;
      write_faults = c.write_faults;
      write_memory_faults = c.write_memory_faults;
      taken = c.taken;
    } };

    ghost invariant = { λ c. c.at ≤ length c.input.items };
}

impl MemConsole {
    /// A console with this input, whose calls with these numbers fail.
    pub fn new(alloc: Global, input: &[u8], fails: &[u32]) -> Result<MemConsole, AllocError>
        ensures { IfOk result (λ c. c ≡ record {
          input = input.now;
          out = [];
          err = [];
          fails = fails.now;
          calls = 0;
          read_faults = 0;
          write_faults = 0;
          write_memory_faults = 0;
          taken = 0;
        }) }
    {
        let input = Vec::from_slice(alloc, input)?;
        let calls = NumberedCalls::new(alloc, fails)?;
        Ok(MemConsole {
            input,
            at: 0,
            out: Vec::new(alloc),
            err: Vec::new(alloc),
            calls,
            read_faults: 0,
            write_faults: 0,
            write_memory_faults: 0,
            taken: 0,
        })
    }

    /// The bytes written to the output.
    pub fn out_bytes(&self) -> &[u8]
        ensures { result.now ≡ self.now.out }
    {
        self.out.as_slice()
    }

    /// The bytes written to the output for errors.
    pub fn err_bytes(&self) -> &[u8]
        ensures { result.now ≡ self.now.err }
    {
        self.err.as_slice()
    }

    // Counts a write, and refuses it if it is one that fails.
    fn begin_write(&mut self) -> Result<(), ConsoleFault>
        ensures failed { IsErr result ↔ Contains self.old.fails self.old.calls }
        ensures ok { OnOk result (self.new ≡ record self.old { calls = next_call self.old.calls }) }
        ensures err { IfErr result (λ fault. (fault ≡ ConsoleFault.Failed) × (self.new ≡
            record self.old { calls = next_call self.old.calls; write_faults = more self.old.write_faults 1 })) }
    {
        if self.calls.next_fails() {
            self.write_faults = self.write_faults.saturating_add(1);
            return Err(ConsoleFault::Failed);
        }
        Ok(())
    }

    // Refuses a write that ran out of memory, and counts that.
    fn finish_write(&mut self, grown: Result<(), AllocError>) -> Result<(), ConsoleFault>
        ensures ok { OnOk grown (IsOk result × (self.new ≡ self.old)) }
        ensures err { OnErr grown (IsErrOf result ConsoleFault.OutOfMemory × (self.new ≡
            record self.old { write_memory_faults = more self.old.write_memory_faults 1 })) }
    {
        if grown.is_err() {
            self.write_memory_faults = self.write_memory_faults.saturating_add(1);
            return Err(ConsoleFault::OutOfMemory);
        }
        Ok(())
    }
}

impl Console for MemConsole {
    ghost shown = { desk_of };

    /// Moves as many bytes as the input has left and the buffer has room for; it never runs out of memory.
    fn take(&mut self, buf: &mut [u8]) -> Result<usize, ConsoleFault>
        ensures moves { IfOk result (λ n. n ≡ min (length self.old.input) (length buf.old)) }
        ensures buffer { IfOk result (λ n. buf.new ≡ take n self.old.input ++ drop n buf.old) }
        ensures failed { IsErrOf result ConsoleFault.Failed ↔ Contains self.old.fails self.old.calls }
        ensures wants_none { result ≢ Err ConsoleFault.OutOfMemory }
        ensures count { IfOk result (λ n. self.new.taken ≡ min (self.old.taken + n) (2 ^ 64 - 1)) }
        ensures after { self.new ≡ after_take self.old result }
    {
        if self.calls.next_fails() {
            self.read_faults = self.read_faults.saturating_add(1);
            return Err(ConsoleFault::Failed);
        }
        let left = &self.input[self.at..];
        let count = left.len().min(buf.len());
        buf[..count].copy_from_slice(&left[..count]);
        self.at += count;
        self.taken = self.taken.saturating_add(count as u64);
        Ok(count)
    }

    fn out(&mut self, bytes: &[u8]) -> Result<(), ConsoleFault>
        ensures empty { bytes.now ≡ [] → IsOk result }
        ensures failed { IsErrOf result ConsoleFault.Failed ↔
            ((bytes.now ≢ []) × Contains self.old.fails self.old.calls) }
        ensures after { self.new ≡
            record (after_write self.old bytes.now result) { out = self.old.out ++ appended bytes.now result } }
    {
        if bytes.is_empty() {
            return Ok(());
        }
        self.begin_write()?;
        let grown = self.out.extend_from_slice(bytes);
        self.finish_write(grown)
    }

    fn err(&mut self, bytes: &[u8]) -> Result<(), ConsoleFault>
        ensures empty { bytes.now ≡ [] → IsOk result }
        ensures failed { IsErrOf result ConsoleFault.Failed ↔
            ((bytes.now ≢ []) × Contains self.old.fails self.old.calls) }
        ensures after { self.new ≡
            record (after_write self.old bytes.now result) { err = self.old.err ++ appended bytes.now result } }
    {
        if bytes.is_empty() {
            return Ok(());
        }
        self.begin_write()?;
        let grown = self.err.extend_from_slice(bytes);
        self.finish_write(grown)
    }
}
