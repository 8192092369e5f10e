// The kind Align: a power of two and a rest, or none.
ghost use Rattle.std.specs.Prelude.{◌≡◌};
ghost use Rattle.kinds.specs.Align.{spanning, finer, align_model};
ghost use Rattle.kinds.specs.AlignLaws.{align_laws};

use facts::kind::Kind;
use statements::residue::Residue;
use statements::statement::Statement;
use std::cmp::Ordering;

/// The numbers that leave a rest by a power of two, or no number.
#[derive(Clone, Copy, PartialEq, Eq, Debug)]
pub struct Align(pub Option<Residue>);

impl Align {
    // What is known of a number of lo to hi: one number gives its own residue, more give nothing to go by.
    fn spanning(lo: i64, hi: i64) -> Align
        ensures { result ≡ spanning lo hi }
    {
        match lo.cmp(&hi) {
            Ordering::Less => Align(Some(Residue { k: 0, r: 0 })),
            Ordering::Equal => Align(Some(Residue {
                k: 24,
                r: lo.rem_euclid(16_777_216) as u32,
            })),
            Ordering::Greater => Align(None),
        }
    }

    // The numbers of a, which has the larger power, if they leave the rest of b.
    fn finer(a: Residue, b: Residue) -> Align
        ensures { result ≡ finer a b }
    {
        Align((a.r % (1 << b.k) == b.r).then_some(a))
    }
}

impl Kind for Align {
    ghost model = { align_model };

    ghost lawful = { align_laws };

    fn state(s: Statement) -> Align {
        match s {
            Statement::Aligned(a) => Align(Some(a)),
            Statement::Between(..) => Align::spanning(s.lowest(), s.highest()),
        }
    }

    fn merge(self, other: Align) -> Align {
        let (Some(a), Some(b)) = (self.0, other.0) else {
            return Align(None);
        };
        if b.k <= a.k {
            Align::finer(a, b)
        } else {
            Align::finer(b, a)
        }
    }

    fn next(self, n: i64) -> Option<i64> {
        self.0?.least_from(n)
    }

    // It mirrors next: with a direction to pass, one function would be longer than the two.
    fn last(self, n: i64) -> Option<i64> {
        self.0?.greatest_to(n)
    }

    fn same(self, other: Align) -> bool {
        self == other
    }
}
