// Kinds in which a Between loses nothing.
ghost use Rattle.std.specs.Prelude.{◌≡◌, ℤ};
ghost use Rattle.statements.specs.Between.{between};
ghost use Rattle.statements.specs.declared.statement.Statement.TheVariants.{Between};
ghost use Rattle.facts.specs.Laws.{Exact};

use crate::kind::Kind;

/// A kind whose Between allows exactly lo to hi.
pub trait ExactKind: Kind {
    /// The fact that allows exactly lo to hi, within U.
    fn exactly(lo: i64, hi: i64) -> Self
        ensures is { result ≡ Self.Kind.model.stated (Between lo hi) }
        ensures allows { (n : ℤ) → Self.Kind.model.allows result n ≡ between lo hi n };

    // What every exact kind shows.
    ghost exact: { Exact Self.Kind.model };
}
