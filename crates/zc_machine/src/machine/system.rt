// Instructions of the system, which the machine's environment answers.

ghost use Rattle.std.specs.Option.{option_map_or};
ghost use Rattle.std.specs.Prelude.{◌≡◌};
ghost use Rattle.rv_decode.specs.Formats.{rs1_of};
ghost use Rattle.rv_decode.specs.State.{reg_in};
ghost use Rattle.rv_decode.specs.System.{system_operand};
ghost use Rattle.zc_machine.specs.Answer.{answer_of};
ghost use Rattle.zc_machine.specs.Fetch.{Missing};
ghost use Rattle.zc_machine.specs.Step.{made, unread};

use super::Machine;
use crate::answer::Step;
use crate::reason::Reason;
use rv_decode::bits::register_at;
use rv_decode::device_access::DeviceAccess;
use rv_decode::system::{is_system, takes_register};

impl Machine {
    // What a step asks that fetches no instruction, for this reason, if it asks. It is rare, so the loop of steps has a call
    // of it; a call that gave a step would make the loop test each step for a commit.
    #[cold]
    #[inline(never)]
    pub(super) fn missed(&self, reason: Reason) -> Option<DeviceAccess>
        ensures { option_map_or Step.Asks result (Step.Stopped reason) ≡ answer_of (made (Missing reason) self.now) }
    {
        match reason {
            Reason::Illegal => self.unread(),
            Reason::BadAccess | Reason::Misaligned | Reason::Break | Reason::UnknownCall => None,
        }
    }

    // What a step asks where the tables have no instruction: a word of code may be one of the system.
    fn unread(&self) -> Option<DeviceAccess>
        ensures { option_map_or Step.Asks result (Step.Stopped Reason.Illegal) ≡ answer_of (unread self.now) }
    {
        let word = self.code_word(self.pc)?;
        if !is_system(word) {
            return None;
        }
        Some(DeviceAccess::System {
            word,
            operand: self.system_operand(word),
        })
    }

    // The operand of an instruction of the system.
    fn system_operand(&self, word: u32) -> u32
        ensures { result ≡ system_operand word (reg_in self.now (rs1_of word)) }
    {
        let source = register_at(word, 15);
        if takes_register(word) {
            self.register(source)
        } else {
            u32::from(source.number())
        }
    }
}
