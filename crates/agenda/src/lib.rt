// Agendas: the constraints that wait to be fired, and the order in which they are taken.
#![tactic(auto)]

pub mod drain;
pub mod line;
pub mod lowest;
pub mod queue;
mod ring;
pub mod stack;

ghost use Rattle.std.specs.Prelude.{◌≡◌, ℕ, ◌<◌, true, MatchBool};
ghost use Rattle.sets.specs.Members.{Members, Nobody, Joined};
ghost use Rattle.agenda.specs.Waiting.{Taken};

/// An agenda means the set of the constraints that wait, by their numbers, 0 to 511. Which of
/// them is taken next is each agenda's own affair.
pub trait Agenda {
    ghost waits: { Self → Members };

    /// Lets a constraint wait; a number from 512 on changes nothing.
    fn put(&mut self, constraint: usize)
        ensures { Joined 512 (waits self.old) constraint (waits self.new) };

    /// Whether a constraint waits.
    fn any(&self) -> bool
        ensures { MatchBool result ((k : ℕ) × waits self.now k ≡ true) (Nobody (waits self.now)) };

    /// Removes some waiting constraint and answers its number, absent exactly if none waits.
    fn take(&mut self) -> Option<usize>
        ensures { Taken (waits self.old) result (waits self.new) };

    /// Removes every constraint.
    fn empty(&mut self)
        ensures { Nobody (waits self.new) };

    ghost below: { (a : Self) (k : ℕ) → waits a k ≡ true → k < 512 };
}

#[cfg(test)]
mod tests;
