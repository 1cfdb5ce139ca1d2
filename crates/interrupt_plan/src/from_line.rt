// What is kept of the lines of a text.

ghost use Rattle.std.specs.Prelude.{◌≡◌, codes, map};
ghost use Rattle.std.specs.Option.{option_map};
ghost use Rattle.interrupt_plan.specs.SharedPlan.{SharedEntry, without_cells};
ghost use Rattle.interrupt_plan.specs.Text.{Grammar, if_allowed, plan_grammar, shared_grammar};

use crate::plan::PlanCut;
use crate::shared_plan::SharedCut;

/// An interrupt that is kept of a line: by its type, a text has cells or none.
pub trait FromLine: Drop {
    ghost grammar: { Grammar };

    ghost entry: { Self → SharedEntry };

    /// The first line of the text.
    fn title() -> &'static [u8]
        ensures { result.now ≡ grammar.title };

    /// The number of the commit.
    fn commit(&self) -> u64
        ensures { result ≡ (entry self.now).entry.at };

    /// What is kept of a line that spells this interrupt, if it may stand in the text.
    fn from_line(cut: SharedCut) -> Option<Self>
        ensures { option_map entry result ≡ if_allowed grammar cut };
}

impl FromLine for PlanCut {
    ghost grammar = { plan_grammar };

    ghost entry = { without_cells };

    fn title() -> &'static [u8] {
        b"zcld plan 1".as_slice()
    }

    fn commit(&self) -> u64 {
        self.at
    }

    fn from_line(cut: SharedCut) -> Option<PlanCut> {
        if !cut.cells.is_empty() {
            return None;
        }
        Some(PlanCut {
            at: cut.at,
            done: cut.done,
            dirt: cut.dirt,
        })
    }
}

impl FromLine for SharedCut {
    ghost grammar = { shared_grammar };

    ghost entry = { λ e. e };

    fn title() -> &'static [u8] {
        b"zcld shared 1".as_slice()
    }

    fn commit(&self) -> u64 {
        self.at
    }

    fn from_line(cut: SharedCut) -> Option<SharedCut> {
        Some(cut)
    }
}
