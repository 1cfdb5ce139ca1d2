// The entries of a schedule, one after another.

ghost use Rattle.std.specs.Prelude.{◌≡◌, drop};
ghost use Rattle.zc_machine.specs.Schedule.{first_commit, made_at};

use crate::between::BetweenCommits;
use crate::machine::Machine;
use crate::schedule::Schedule;

/// A schedule and how far a run has come in it.
#[derive(Drop)]
pub struct ScheduleCursor<'a, S> {
    schedule: &'a S,
    next: u32,
}

impl<'a, S> ScheduleCursor<'a, S> {
    /// The start of a schedule.
    pub fn new(schedule: &'a S) -> Self
        ensures schedule { result.schedule.now ≡ schedule.now }
        ensures start { result.next ≡ 0 }
    {
        ScheduleCursor { schedule, next: 0 }
    }
}

impl<S: Schedule> BetweenCommits for ScheduleCursor<'_, S> {
    ghost happens = { λ cursor. made_at (drop cursor.next (S.entries cursor.schedule.now)) };

    ghost next = { λ cursor. first_commit (drop cursor.next (S.entries cursor.schedule.now)) };

    fn next_commit(&self) -> u64 {
        if self.next < self.schedule.count() {
            self.schedule.at(self.next)
        } else {
            u64::MAX
        }
    }

    fn act_on(&mut self, machine: &mut Machine) {
        let count = self.schedule.count();
        while self.next < count && self.schedule.at(self.next) == machine.commits() {
            self.schedule.make(self.next, machine);
            self.next += 1;
        }
    }
}
