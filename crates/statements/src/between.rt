// The statement Between: the numbers of U from one to another.
ghost use Rattle.std.specs.Prelude.{◌≡◌};
ghost use Rattle.statements.specs.Between.{between};
ghost use Rattle.statements.specs.Search.{LeastFrom, GreatestTo};

use crate::numbers::{lowered, raised};

/// The numbers of U from lo to hi, of which there may be none.
#[derive(Clone, Copy)]
pub struct Between {
    pub lo: i64,
    pub hi: i64,
}

impl Between {
    /// Is n one of them?
    pub fn allows(self, n: i64) -> bool
        ensures { result ≡ between self.lo self.hi n }
    {
        (raised(self.lo)..=lowered(self.hi)).contains(&n)
    }

    /// The least of them from n up.
    pub fn least_from(self, n: i64) -> Option<i64>
        ensures { LeastFrom (between self.lo self.hi) n result }
    {
        let v = n.max(raised(self.lo));
        (v <= lowered(self.hi)).then_some(v)
    }

    // It mirrors least_from: one function for both would have to be told the direction, and turn each comparison by it.
    /// The greatest of them from n down.
    pub fn greatest_to(self, n: i64) -> Option<i64>
        ensures { GreatestTo (between self.lo self.hi) n result }
    {
        let v = n.min(lowered(self.hi));
        (raised(self.lo) <= v).then_some(v)
    }
}
