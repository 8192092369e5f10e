// The kind Span: two ends, or none. It is exact.
ghost use Rattle.std.specs.Prelude.{◌≡◌};
ghost use Rattle.kinds.specs.Span.{cut, span_model};
ghost use Rattle.kinds.specs.SpanLaws.{span_laws, span_exact};

use crate::ends::Ends;
use facts::exact::ExactKind;
use facts::kind::Kind;
use statements::numbers::{lowered, raised};
use statements::statement::Statement;

/// The numbers from one end to the other, or no number.
#[derive(Clone, Copy, PartialEq, Eq, Debug)]
pub struct Span(pub Option<Ends>);

impl Span {
    /// The numbers of U from lo to hi.
    pub fn cut(lo: i64, hi: i64) -> Span
        ensures { result ≡ cut lo hi }
    {
        let lo = raised(lo);
        let hi = lowered(hi);
        // No `then`: its closure would have to require the test again, as ends out of order may not be made.
        if lo <= hi {
            Span(Some(Ends { lo, hi }))
        } else {
            Span(None)
        }
    }
}

impl Kind for Span {
    ghost model = { span_model };

    ghost lawful = { span_laws };

    fn state(s: Statement) -> Span {
        Span::cut(s.lowest(), s.highest())
    }

    fn merge(self, other: Span) -> Span {
        let (Some(e), Some(d)) = (self.0, other.0) else {
            return Span(None);
        };
        Span::cut(e.lo.max(d.lo), e.hi.min(d.hi))
    }

    fn next(self, n: i64) -> Option<i64> {
        let e = self.0?;
        let v = n.max(e.lo);
        (v <= e.hi).then_some(v)
    }

    // It mirrors next: one function for both would have to be told the direction, and turn each comparison by it.
    fn last(self, n: i64) -> Option<i64> {
        let e = self.0?;
        let v = n.min(e.hi);
        (e.lo <= v).then_some(v)
    }

    fn same(self, other: Span) -> bool {
        self == other
    }
}

impl ExactKind for Span {
    ghost exact = { span_exact };

    fn exactly(lo: i64, hi: i64) -> Span {
        Span::cut(lo, hi)
    }
}
