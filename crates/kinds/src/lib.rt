// The base kinds of fact, Span and Align, and the full kind made of both.
#![tactic(auto)]

pub mod align;
pub mod ends;
pub mod examples;
pub mod full;
pub mod span;

#[cfg(test)]
mod tests {
    use crate::align::Align;
    use crate::full::Full;
    use crate::span::Span;
    use facts::both::Both;
    use facts::exact::ExactKind;
    use facts::kind::Kind;
    use facts::tidy::{allows_none, highest, lowest, narrow, tidy};
    use statements::residue::Residue;
    use statements::statement::Statement;

    // A Both whose first part is a Both.
    type Nested = Both<Full, Align>;

    #[test]
    fn spans_merge(rt: HostRuntime) {
        let f = Span::exactly(0, 10).merge(Span::exactly(5, 20));
        assert!(rt; f.same(Span::exactly(5, 10)));
        assert!(rt; allows_none(Span::exactly(0, 4).merge(Span::exactly(5, 9))));
    }

    #[test]
    fn aligns_merge(rt: HostRuntime) {
        let f = Align(Some(Residue { k: 3, r: 0 }));
        let g = Align(Some(Residue { k: 2, r: 0 }));
        assert!(rt; f.merge(g).same(f));
        let f = Align(Some(Residue { k: 3, r: 4 }));
        let g = Align(Some(Residue { k: 2, r: 2 }));
        assert!(rt; allows_none(f.merge(g)));
    }

    #[test]
    fn full_ends(rt: HostRuntime) {
        let f = Full::exactly(5, 9).merge(Full::state(Statement::Aligned(Residue { k: 2, r: 0 })));
        assert_eq!(rt; lowest(f), 8);
        assert_eq!(rt; highest(f), 8);
        assert!(rt; tidy(f).same(Full::exactly(8, 8)));
    }

    #[test]
    fn nested_steps(rt: HostRuntime) {
        let s = Nested::exactly(-100, 9);
        let f = s.merge(Nested::state(Statement::Aligned(Residue { k: 4, r: 3 })));
        assert_eq!(rt; lowest(f), -93);
        assert_eq!(rt; f.last(2), Some(-13));
        assert_eq!(rt; f.next(4), None);
        let mut table = [s, f];
        assert_eq!(rt; narrow(&mut table, Statement::Between(0, 9)), 2);
        assert_eq!(rt; lowest(table[1]), 3);
    }
}
