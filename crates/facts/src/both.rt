// Two facts of two kinds about one number: a kind again, exact where its first part is.
ghost use Rattle.facts.specs.Both.{both_model};
ghost use Rattle.facts.specs.BothLaws.{both_laws, both_exact};

use crate::exact::ExactKind;
use crate::kind::Kind;
use statements::statement::Statement;

/// It allows what both parts allow. A part may be a Both itself.
#[derive(Clone, Copy, PartialEq, Eq, Debug)]
pub struct Both<A, B> {
    pub first: A,
    pub second: B,
}

impl<A: Kind, B: Kind> Kind for Both<A, B> {
    ghost model = { both_model A.Kind.model B.Kind.model };

    ghost lawful = { both_laws A.Kind.model B.Kind.model A.Kind.lawful B.Kind.lawful };

    fn state(s: Statement) -> Both<A, B> {
        Both {
            first: A::state(s),
            second: B::state(s),
        }
    }

    fn merge(self, other: Both<A, B>) -> Both<A, B> {
        Both {
            first: self.first.merge(other.first),
            second: self.second.merge(other.second),
        }
    }

    // The parts take turns: each goes on from where the other stands, until they agree or one has no more.
    // last is a loop of its own: one loop for both would have to be told its direction and what each part allows, as a ghost
    // value with a clause for each part, and so would say more than the two.
    fn next(self, n: i64) -> Option<i64> {
        let mut from = n;
        loop {
            let v = self.first.next(from)?;
            let w = self.second.next(v)?;
            if w == v {
                return Some(v);
            }
            from = w;
        }
    }

    fn last(self, n: i64) -> Option<i64> {
        let mut to = n;
        loop {
            let v = self.first.last(to)?;
            let w = self.second.last(v)?;
            if w == v {
                return Some(v);
            }
            to = w;
        }
    }

    // Part by part and no derive: whether two facts are equal is for their kind to say, and `==` need not say it.
    fn same(self, other: Both<A, B>) -> bool {
        self.first.same(other.first) && self.second.same(other.second)
    }
}

impl<A: ExactKind, B: Kind> ExactKind for Both<A, B> {
    ghost exact = { both_exact A.Kind.model B.Kind.model A.Kind.lawful B.Kind.lawful A.ExactKind.exact };

    fn exactly(lo: i64, hi: i64) -> Both<A, B> {
        Both {
            first: A::exactly(lo, hi),
            second: B::state(Statement::Between(lo, hi)),
        }
    }
}
