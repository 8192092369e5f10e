// Agendas that take one end of the order in which the constraints came.
ghost use Rattle.std.specs.Prelude.{◌≡◌, [], ◌++◌, MatchBool};
ghost use Rattle.std.specs.Option.{option_to_list};
ghost use Rattle.sets.specs.Members.{Nobody, Joined};
ghost use Rattle.agenda.specs.Waiting.{Taken};
ghost use Rattle.agenda.specs.Orders.{pushed};
ghost use Rattle.agenda.specs.Rings.{waits_in, from_oldest};
ghost use Rattle.std.proofs.Common.{rules};

use super::Agenda;
use super::ring::Ring;

/// Constraints in the order in which they came: one is put at the end, and taken from the end or from the front.
#[derive(Drop)]
pub struct Line<const NEWEST_FIRST: bool> {
    ring: Ring,
}

impl<const NEWEST_FIRST: bool> Line<NEWEST_FIRST> {
    /// The agenda in which nothing waits.
    pub fn new() -> Self
        ensures none { Nobody (waits_in result.ring) }
        ensures order { from_oldest result.ring ≡ [] }
    {
        Line { ring: Ring::new() }
    }
}

impl<const NEWEST_FIRST: bool> Agenda for Line<NEWEST_FIRST> {
    ghost waits = { λ line. waits_in line.ring };

    ghost below = { Prim.search rules };

    fn put(&mut self, constraint: usize)
        ensures waiting { Joined 512 (waits_in self.old.ring) constraint (waits_in self.new.ring) }
        ensures order { from_oldest self.new.ring ≡ pushed constraint (from_oldest self.old.ring) }
    {
        self.ring.put(constraint);
    }

    fn any(&self) -> bool {
        self.ring.any()
    }

    fn take(&mut self) -> Option<usize>
        ensures waiting { Taken (waits_in self.old.ring) result (waits_in self.new.ring) }
        ensures order { MatchBool NEWEST_FIRST
            (from_oldest self.old.ring ≡ from_oldest self.new.ring ++ option_to_list result)
            (from_oldest self.old.ring ≡ option_to_list result ++ from_oldest self.new.ring) }
    {
        if NEWEST_FIRST {
            self.ring.take_newest()
        } else {
            self.ring.take_oldest()
        }
    }

    fn empty(&mut self)
        ensures none { Nobody (waits_in self.new.ring) }
        ensures order { from_oldest self.new.ring ≡ [] }
    {
        self.ring.empty();
    }
}
