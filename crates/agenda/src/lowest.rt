// The agenda that takes the constraint with the lowest number.
ghost use Rattle.sets.specs.Members.{Nobody, Least};
ghost use Rattle.sets.specs.Wide.{holds_wide};
ghost use Rattle.agenda.specs.Waiting.{Taken};
ghost use Rattle.std.proofs.Common.{rules};

use super::Agenda;
use sets::wide::Set512;

/// Lowest first: of the waiting constraints the one with the least number is taken.
#[derive(Drop)]
pub struct Lowest {
    members: Set512,
}

impl Lowest {
    /// The agenda in which nothing waits.
    pub fn new() -> Lowest
        ensures { Nobody (holds_wide result.members) }
    {
        Lowest {
            members: Set512::none(),
        }
    }
}

impl Agenda for Lowest {
    ghost waits = { λ s. holds_wide s.members };

    ghost below = { Prim.search rules };

    fn put(&mut self, constraint: usize) {
        self.members.insert(constraint);
    }

    fn any(&self) -> bool {
        !self.members.is_empty()
    }

    fn take(&mut self) -> Option<usize>
        ensures waiting { Taken (holds_wide self.old.members) result (holds_wide self.new.members) }
        ensures order { Least (holds_wide self.old.members) result }
    {
        let least = self.members.lowest()?;
        self.members.remove(least);
        Some(least)
    }

    fn empty(&mut self) {
        self.members = Set512::none();
    }
}
