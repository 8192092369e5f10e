// The statement Aligned: the numbers of U that leave a given rest by a power of two.
ghost use Rattle.std.specs.Prelude.{◌≡◌, ◌^◌, pos, ◌≤ℤ◌, ◌<ℤ◌};
ghost use Rattle.statements.specs.Aligned.{aligned, rest, Made};
ghost use Rattle.statements.specs.Search.{LeastFrom, GreatestTo};

use crate::numbers::{BOTTOM, TOP, is_number, lowered, raised};
use crate::residue::Residue;

impl Residue {
    /// The residue r by 2^k; absent where k is above 24 or r is not below 2^k.
    pub fn new(k: u32, r: u32) -> Option<Residue>
        ensures { Made k r result }
    {
        // No `then`: its closure would have to require the test again, as what it makes may not be without it.
        if k <= 24 && r < 1 << k {
            Some(Residue { k, r })
        } else {
            None
        }
    }

    // What z leaves by 2^k.
    fn rest(self, z: i64) -> i64
        ensures is { result ≡ pos (rest (2 ^ self.k) z) }
        ensures small { (pos 0 ≤ℤ result) × (result <ℤ pos 16777216) }
    {
        z.rem_euclid(1 << self.k)
    }

    /// Is n a number of U that leaves this rest?
    pub fn allows(self, n: i64) -> bool
        ensures { result ≡ aligned self n }
    {
        is_number(n) && self.rest(n - i64::from(self.r)) == 0
    }

    /// The least number of U from n up that leaves this rest.
    pub fn least_from(self, n: i64) -> Option<i64>
        ensures { LeastFrom (aligned self) n result }
    {
        if n > TOP {
            return None;
        }
        let from = raised(n);
        let v = from + self.rest(i64::from(self.r) - from);
        (v <= TOP).then_some(v)
    }

    // It mirrors least_from: one function for both would have to be told the direction, and turn each comparison by it.
    /// The greatest number of U from n down that leaves this rest.
    pub fn greatest_to(self, n: i64) -> Option<i64>
        ensures { GreatestTo (aligned self) n result }
    {
        if n < BOTTOM {
            return None;
        }
        let to = lowered(n);
        let v = to - self.rest(to - i64::from(self.r));
        (BOTTOM <= v).then_some(v)
    }
}
