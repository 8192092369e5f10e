// Setting constraints waiting: those in force that name a cell, those of a premise, and all in force.
ghost use Rattle.std.specs.Prelude.{◌≡◌, ℕ, Bool, ◌||◌, nat_eq, Option};
ghost use Rattle.std.specs.Fn.{FnReturnsAt};
ghost use Rattle.std.specs.List.{slice_get};
ghost use Rattle.plan.specs.declared.constraint.Constraint.{Constraint};
ghost use Rattle.sets.specs.Small.{holds};
ghost use Rattle.calls.specs.Boards.{concerns};
ghost use Rattle.calls.specs.Calls.{standing, belongs};
ghost use Rattle.wakes.specs.Indexes.{constraints_in};
ghost use Rattle.wakes.specs.Passing.{AnswersAs};

use crate::concern::{is_in_force, is_owned_by};
use crate::index::Index;
use agenda::Agenda;
use plan::constraint::Constraint;
use sets::small::Set32;

impl Index {
    /// Lets each constraint in force that names the cell wait, from the lowest number to the highest; no other begins to
    /// wait, and none ceases to.
    pub fn wake<A: Agenda>(&self, cell: usize, force: Set32, agenda: &mut A)
        ensures { (j : ℕ) → A.waits agenda.new j ≡ (A.waits agenda.old j || concerns (holds force) (λ x. nat_eq x cell) (slice_get (constraints_in self.now) j)) }
    {
        for number in self.part(cell) {
            let i = usize::from(*number);
            if is_in_force(&self.constraints[i], force) {
                agenda.put(i);
            }
        }
    }

    /// Lets each constraint that the premise owns wait, likewise.
    pub fn wake_owned<A: Agenda>(&self, premise: usize, agenda: &mut A)
        ensures { (j : ℕ) → A.waits agenda.new j ≡ (A.waits agenda.old j || belongs premise (slice_get (constraints_in self.now) j)) }
    {
        self.wake_passing(|k| is_owned_by(k, premise), agenda);
    }

    /// Lets each constraint in force wait, likewise.
    pub fn wake_standing<A: Agenda>(&self, force: Set32, agenda: &mut A)
        ensures { (j : ℕ) → A.waits agenda.new j ≡ (A.waits agenda.old j || standing (holds force) (slice_get (constraints_in self.now) j)) }
    {
        self.wake_passing(|k| is_in_force(k, force), agenda);
    }

    // Lets each constraint that passes wait, likewise.
    fn wake_passing<A: Agenda, F: Fn(&Constraint) -> bool>(&self, passes: F, agenda: &mut A)
        requires { F.IsAlwaysCallable passes }
        ensures { (test : Option Constraint → Bool) → AnswersAs (FnReturnsAt F.Fn passes) test
            → (j : ℕ) → A.waits agenda.new j ≡ (A.waits agenda.old j || test (slice_get (constraints_in self.now) j)) }
    {
        for (i, k) in self.constraints.iter().enumerate() {
            if passes(k) {
                agenda.put(i);
            }
        }
    }
}
