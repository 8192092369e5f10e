// What a kind of fact offers, and the laws that it owes.
ghost use Rattle.std.specs.Prelude.{◌≡◌};
ghost use Rattle.statements.specs.Search.{LeastFrom, GreatestTo};
ghost use Rattle.facts.specs.Model.{Model};
ghost use Rattle.facts.specs.Laws.{Laws};

use statements::statement::Statement;

/// A kind of fact. A fact means the set of numbers of U that it allows.
pub trait Kind: Copy {
    // The meaning of the facts of this kind and of its calls.
    ghost model: { Model Self };

    /// The fact that a statement gives.
    fn state(s: Statement) -> Self
        ensures { result ≡ model.stated s };

    /// The fact that says what both say.
    fn merge(self, other: Self) -> Self
        ensures { result ≡ model.meet self other };

    /// The least allowed number from n up, absent where there is none.
    fn next(self, n: i64) -> Option<i64>
        ensures { LeastFrom (model.allows self) n result };

    /// The greatest allowed number from n down, absent where there is none.
    fn last(self, n: i64) -> Option<i64>
        ensures { GreatestTo (model.allows self) n result };

    /// Are the two facts equal?
    fn same(self, other: Self) -> bool
        ensures { result ≡ model.equal self other };

    // What every kind shows.
    ghost lawful: { Laws model };
}
