// What happens to a machine between its commits.

ghost use Rattle.std.specs.Prelude.{◌≡◌, ℕ, ◌-◌, ◌^◌, ◌<◌, ◌≤◌};
ghost use Rattle.rv_decode.specs.State.{ZcCore};

use crate::machine::Machine;

/// What happens to a machine between its commits, such as the interrupts of a plan. It is settled
/// before the run, and made commit by commit.
pub trait BetweenCommits {
    // What is still to happen before the commit with this number.
    ghost happens: { Self → ℕ → ZcCore → ZcCore };

    // The number of the commit before which something happens next.
    ghost next: { Self → ℕ };

    /// The number of the commit before which something happens next, or the last one if nothing does any more.
    fn next_commit(&self) -> u64
        ensures is { result ≡ next self.now }
        ensures none_before { (k : ℕ) (z : ZcCore) → k < result → happens self.now k z ≡ z };

    /// Makes everything that happens before the machine's next commit.
    fn act_on(&mut self, machine: &mut Machine)
        requires not_past { machine.old.commits ≤ next self.old }
        requires room { machine.old.commits < 2 ^ 64 - 1 }
        ensures made { machine.new ≡ happens self.old machine.old.commits machine.old }
        ensures commits { machine.new.commits ≡ machine.old.commits }
        ensures exit { machine.new.exit ≡ machine.old.exit }
        ensures later { machine.old.commits < next self.new }
        ensures goes_on { (k : ℕ) → machine.old.commits < k → happens self.new k ≡ happens self.old k };
}
