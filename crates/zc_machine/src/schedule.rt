// What happens to a machine, in the order of its commits.

ghost use Rattle.std.specs.Prelude.{◌≡◌, ◌<◌, List, length, slice_get, IfSome};
ghost use Rattle.std.specs.List.Sorted.{IsNonDecreasingBy};
ghost use Rattle.zc_machine.specs.Schedule.{Timed};

use crate::machine::Machine;

/// What happens to a machine before commits of its run, as entries in the order of the commits.
pub trait Schedule {
    // The entries.
    ghost entries: { Self → List Timed };

    /// The number of entries.
    fn count(&self) -> u32
        ensures count { result ≡ length (entries self.now) }
        ensures in_order { IsNonDecreasingBy (λ e. e.at) (entries self.now) };

    /// The commit before which the entry with this number comes, counted from 0.
    fn at(&self, i: u32) -> u64
        requires { i < length (entries self.now) }
        ensures { IfSome (slice_get (entries self.now) i) (λ e. result ≡ e.at) };

    /// Makes the entry with this number.
    fn make(&self, i: u32, machine: &mut Machine)
        requires { i < length (entries self.now) }
        ensures made { IfSome (slice_get (entries self.now) i) (λ e. machine.new ≡ e.makes machine.old) }
        ensures commits { machine.new.commits ≡ machine.old.commits }
        ensures exit { machine.new.exit ≡ machine.old.exit };
}
