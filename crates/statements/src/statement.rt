// A statement, and all that the layers above ask of one.
ghost use Rattle.std.specs.Prelude.{◌≡◌};
ghost use Rattle.statements.specs.Numbers.{InU};
ghost use Rattle.statements.specs.Search.{LeastFrom, GreatestTo, lowest, highest};
ghost use Rattle.statements.specs.Statements.{allowed};

use crate::between::Between;
use crate::numbers::{BOTTOM, TOP};
use crate::residue::Residue;

/// What can be said of a number of U.
#[derive(Clone, Copy, PartialEq, Eq, Debug)]
pub enum Statement {
    // Its ends, and no struct of them, as sheets, kinds and cells write them.
    Between(i64, i64),
    Aligned(Residue),
}

impl Statement {
    /// Does it allow n?
    pub fn allows(self, n: i64) -> bool
        ensures { result ≡ allowed self n }
    {
        match self {
            Statement::Between(lo, hi) => Between { lo, hi }.allows(n),
            Statement::Aligned(a) => a.allows(n),
        }
    }

    /// The least number that it allows from n up, absent where there is none.
    pub fn least_from(self, n: i64) -> Option<i64>
        ensures { LeastFrom (allowed self) n result }
    {
        match self {
            Statement::Between(lo, hi) => Between { lo, hi }.least_from(n),
            Statement::Aligned(a) => a.least_from(n),
        }
    }

    // It mirrors least_from: with a direction to pass, one function would be longer than the two.
    /// The greatest number that it allows from n down, absent where there is none.
    pub fn greatest_to(self, n: i64) -> Option<i64>
        ensures { GreatestTo (allowed self) n result }
    {
        match self {
            Statement::Between(lo, hi) => Between { lo, hi }.greatest_to(n),
            Statement::Aligned(a) => a.greatest_to(n),
        }
    }

    /// The lowest number that it allows, or M where it allows none.
    pub fn lowest(self) -> i64
        ensures is { result ≡ lowest (allowed self) }
        ensures within { InU result }
    {
        self.least_from(BOTTOM).unwrap_or(TOP)
    }

    // It mirrors lowest: with a direction to pass, one function would be longer than the two.
    /// The highest number that it allows, or -M where it allows none.
    pub fn highest(self) -> i64
        ensures is { result ≡ highest (allowed self) }
        ensures within { InU result }
    {
        self.greatest_to(TOP).unwrap_or(BOTTOM)
    }
}
