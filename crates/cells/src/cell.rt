// A cell: a fact and its reasons.
ghost use Rattle.std.specs.Prelude.{◌≡◌};
ghost use Rattle.facts.specs.Derived.{none};
ghost use Rattle.telling.specs.Tables.{start_cell};
ghost use Rattle.telling.specs.Telling.{told_cell};
ghost use Rattle.cells.specs.Meaning.{tags_of, cell_of};

use crate::reasons::Reasons;
use facts::kind::Kind;
use facts::tidy::{allows_none, tidy, told};
use statements::numbers::{BOTTOM, TOP};
use statements::statement::Statement;

/// What is known of a number, and why.
#[derive(Clone, Copy)]
pub struct Cell<K> {
    pub fact: K,
    pub reasons: Reasons,
}

impl<K: Kind> Cell<K> {
    /// The cell of which nothing is known yet: its fact is that of Between -M M, and it has no reasons.
    pub fn start() -> Cell<K>
        ensures { cell_of result ≡ start_cell K.model }
    {
        Cell {
            fact: K::state(Statement::Between(BOTTOM, TOP)),
            reasons: Reasons::none(),
        }
    }

    /// Whether the cell allows no number.
    pub fn in_conflict(self) -> bool
        ensures { result ≡ none K.model (cell_of self).fact }
    {
        allows_none(self.fact)
    }

    /// The cell told g for reasons s. Where that leaves its fact nothing changes; where it leaves no more than g says by
    /// itself the reasons become s; otherwise they are both together.
    pub fn told(self, g: K, s: Reasons) -> Cell<K>
        ensures { cell_of result ≡ told_cell K.model g (tags_of s) (cell_of self) }
    {
        let h = told(self.fact, g);
        if h.same(self.fact) {
            self
        } else if h.same(tidy(g)) {
            Cell {
                fact: h,
                reasons: s,
            }
        } else {
            Cell {
                fact: h,
                reasons: self.reasons.union(s),
            }
        }
    }
}
