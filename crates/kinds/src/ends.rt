// The two ends of a run of numbers.
ghost use Rattle.std.specs.Prelude.{◌≤ℤ◌};
ghost use Rattle.statements.specs.Numbers.{top, bottom};

/// The ends of a run of numbers of U that is not empty.
#[derive(Clone, Copy, PartialEq, Eq, Debug)]
pub struct Ends {
    pub lo: i64,
    pub hi: i64,
    ghost low: { bottom ≤ℤ lo },
    ghost order: { lo ≤ℤ hi },
    ghost high: { hi ≤ℤ top },
}
