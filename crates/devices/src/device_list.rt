// The devices that a text names.

ghost use Rattle.std.specs.Prelude.{◌≡◌, ◌<◌, ◌==◌, ◌++◌, ◌∷◌, [], IfOk, length};
ghost use Rattle.std.specs.List.{list_any};
ghost use Rattle.rv_decode.specs.Devices.{has_registers, in_devices};
ghost use Rattle.devices.specs.Lines.{answers_over, devices_of, has_answers, outputs_of, starts_reset};
ghost use Rattle.devices.specs.Text.{is_range, may_follow};
ghost use Rattle.devices.specs.Invariants.Kept.{CanFollow, shown};

use crate::answers::Answers;
use crate::kept_line::KeptLine;
use crate::ranges::{is_free, lie_in_one};
use crate::tables::{
    is_answering, is_ended, with_again, with_end, with_first, with_output, with_pushed,
    with_registers, with_reset,
};
use std::alloc::{AllocError, Global};
use std::collections::{BTreeMap, BTreeSet};
use std::marker::Model;
use zc_base::mem_map::MemMap;

/// The lines of a text of devices, in order. A range is found by an address in logarithmic time.
#[derive(Drop)]
pub struct Devices {
    lines: Vec<KeptLine>,
    // The end of each range, by its first address.
    ends: BTreeMap<u64, u64>,
    // Whether the control and status registers are among them.
    registers: bool,
    // Whether runs start with sp not set.
    reset: bool,
    // The addresses whose stored bytes appear on standard output.
    outputs: BTreeSet<u32>,
    // What devices answer first, and then again and again.
    first: Vec<u8>,
    again: Vec<u8>,
    // Whether a line has what devices answer.
    answering: bool,
    // Whether the last line is `then`.
    ended: bool,
}

impl Model for Devices {
    ghost use Rattle.std.specs.Prelude.{◌≡◌, List, map};
    ghost use Rattle.std.specs.BTreeMap.{get};
    ghost use Rattle.std.specs.BTreeSet.{contains};
    ghost use Rattle.std.specs.List.{list_any};
    ghost use Rattle.std.specs.Ordering.{nat_cmp};
    ghost use Rattle.devices.specs.Lines.{DevicesLine, answers_of, has_answers, is_then, names_registers, outputs_of, ranges_of, starts_reset, then_of};
    ghost use Rattle.devices.specs.Invariants.Kept.{IsSet, IsTable, shown};

    ghost Value = { List DevicesLine };

    ghost view = { λ d. map shown d.lines.items };

    ghost invariant = { λ d. let all = map shown d.lines.items in
        IsTable (get nat_cmp d.ends) (ranges_of all) × IsSet (contains nat_cmp d.outputs) (outputs_of all)
        × (d.first.items ≡ answers_of all) × (d.again.items ≡ then_of all)
        × (d.answering ≡ has_answers all) × (d.ended ≡ list_any is_then all)
        × (d.registers ≡ names_registers all) × (d.reset ≡ starts_reset all) };
}

impl Devices {
    /// No devices.
    pub fn new(alloc: Global) -> Devices
        ensures { result ≡ [] }
    {
        Devices {
            lines: Vec::new(alloc),
            ends: BTreeMap::new(alloc),
            registers: false,
            reset: false,
            outputs: BTreeSet::new(alloc),
            first: Vec::new(alloc),
            again: Vec::new(alloc),
            answering: false,
            ended: false,
        }
    }

    /// The number of lines.
    pub fn len(&self) -> usize
        ensures { result ≡ length self.now }
    {
        self.lines.len()
    }

    /// Whether `count` bytes from an address on lie in one device.
    pub fn has(&self, at: u32, count: u32) -> bool
        requires { 0 < count }
        ensures { result ≡ in_devices (devices_of self.now) at count }
    {
        lie_in_one(&self.ends, at, count)
    }

    /// Whether the control and status registers are among them.
    pub fn has_registers(&self) -> bool
        ensures { result ≡ has_registers (devices_of self.now) }
    {
        self.registers
    }

    /// Whether runs start with sp not set, as after a chip's reset.
    pub fn starts_reset(&self) -> bool
        ensures { result ≡ starts_reset self.now }
    {
        self.reset
    }

    /// Whether the byte that is stored at an address appears on standard output.
    pub fn is_output(&self, at: u32) -> bool
        ensures { result ≡ list_any (λ x. x == at) (outputs_of self.now) }
    {
        self.outputs.contains(&at)
    }

    /// Whether the lines have what devices answer, so that standard input isn't taken.
    pub fn has_answers(&self) -> bool
        ensures { result ≡ has_answers self.now }
    {
        self.answering
    }

    /// What devices answer, and reads read, in a run of at most `steps` steps: the lines' bytes, or else the input.
    pub fn answers<'a>(&'a self, steps: u64, input: &'a [u8]) -> Answers<'a>
        ensures { result ≡ answers_over self.now steps input.now }
    {
        if self.answering {
            Answers::new(
                self.first.as_slice(),
                self.again.as_slice(),
                u128::from(steps) << 32,
            )
        } else {
            Answers::new(input, &[], 0)
        }
    }

    /// Whether a line may follow these.
    pub fn may_follow(&self, line: &KeptLine, map: MemMap) -> bool
        ensures { result ≡ may_follow map self.now (shown line.now) }
    {
        if self.ended {
            return false;
        }
        match line {
            KeptLine::Range { at, size } => {
                is_range(map, *at, *size) && is_free(&self.ends, *at, *size)
            }
            KeptLine::Registers => !self.registers,
            KeptLine::Reset => !self.reset,
            KeptLine::Output(at) => lie_in_one(&self.ends, *at, 1),
            KeptLine::Answer(_) => true,
            KeptLine::Then(bytes) => !bytes.is_empty(),
        }
    }

    /// These lines and one more.
    pub fn with_line(self, line: KeptLine) -> Result<Devices, AllocError>
        requires { CanFollow self (shown line) }
        ensures { IfOk result (λ devices. devices ≡ self ++ shown line ∷ []) }
    {
        let Devices {
            lines,
            ends,
            registers,
            reset,
            outputs,
            first,
            again,
            answering,
            ended,
        } = self;
        let answers = is_answering(answering, &line);
        let is_last = is_ended(ended, &line);
        let has_registers = with_registers(registers, &line);
        let has_reset = with_reset(reset, &line);
        let more = with_end(ends, &line)?;
        let addresses = with_output(outputs, &line)?;
        let bytes = with_first(first, &line)?;
        let copied = with_again(again, &line)?;
        let all = with_pushed(lines, line)?;
        Ok(Devices {
            lines: all,
            ends: more,
            registers: has_registers,
            reset: has_reset,
            outputs: addresses,
            first: bytes,
            again: copied,
            answering: answers,
            ended: is_last,
        })
    }
}

// Whether a range isn't empty, and lies outside the map.
fn is_range(map: MemMap, at: u32, size: u32) -> bool
    ensures { result ≡ is_range map (record { at = at; size = size }) }
{
    let end = u64::from(at) + u64::from(size);
    size > 0 && end <= 1 << 32 && (end <= u64::from(map.text) || map.stack_high <= at)
}
