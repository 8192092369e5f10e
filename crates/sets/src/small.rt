// Sets of numbers below 32, one bit of a word for each.
ghost use Rattle.std.specs.Prelude.{◌≡◌, ℕ, true, not, ◌&&◌, ◌||◌, Decides, MatchBool};
ghost use Rattle.sets.specs.Members.{Nobody, Same, Joined, Parted, Within, inside, Least, Greatest, count};
ghost use Rattle.sets.specs.Small.{holds};

/// A set of numbers below 32. Sets with the same members are equal values.
#[derive(Clone, Copy, PartialEq, Eq, Debug)]
pub struct Set32 {
    bits: u32,
}

impl Set32 {
    /// The set without a member.
    pub fn none() -> Set32
        ensures { Nobody (holds result) }
    {
        Set32 { bits: 0 }
    }

    /// Whether `n` is a member; no number from 32 on is.
    pub fn has(self, n: u32) -> bool
        ensures { result ≡ holds self n }
    {
        n < 32 && (self.bits >> n) & 1 == 1
    }

    /// This set with `n` as well; from 32 on it stays as it is.
    pub fn insert(self, n: u32) -> Set32
        ensures { Joined 32 (holds self) n (holds result) }
    {
        if n >= 32 {
            return self;
        }
        Set32 {
            bits: self.bits | 1 << n,
        }
    }

    /// This set without `n`; from 32 on it stays as it is, as it has no such member.
    pub fn remove(self, n: u32) -> Set32
        ensures { Parted (holds self) n (holds result) }
    {
        if n >= 32 {
            return self;
        }
        Set32 {
            bits: self.bits & !(1 << n),
        }
    }

    /// The members of either set.
    pub fn union(self, other: Set32) -> Set32
        ensures { (j : ℕ) → holds result j ≡ (holds self j || holds other j) }
    {
        Set32 {
            bits: self.bits | other.bits,
        }
    }

    /// The members of this set that `other` has not.
    pub fn without(self, other: Set32) -> Set32
        ensures { (j : ℕ) → holds result j ≡ (not (holds other j) && holds self j) }
    {
        Set32 {
            bits: self.bits & !other.bits,
        }
    }

    /// Whether `other` has each member of this set; it may have the same ones.
    pub fn is_within(self, other: Set32) -> bool
        ensures within { Decides result (Within (holds self) (holds other)) }
        ensures test { result ≡ inside (holds self) (holds other) 32 }
    {
        self.bits | other.bits == other.bits
    }

    /// Whether both have the same members, which is whether they are the same value.
    pub fn equals(self, other: Set32) -> bool
        ensures members { Decides result (Same (holds self) (holds other)) }
        ensures value { Decides result (self ≡ other) }
    {
        self == other
    }

    /// Whether there is no member.
    pub fn is_empty(self) -> bool
        ensures { MatchBool result (Nobody (holds self)) ((k : ℕ) × holds self k ≡ true) }
    {
        self.bits == 0
    }

    /// The least member, absent exactly without one.
    pub fn lowest(self) -> Option<u32>
        ensures { Least (holds self) result }
    {
        (!self.is_empty()).then_some(self.bits.trailing_zeros())
    }

    // It mirrors lowest: with a direction to pass, one function would be longer than the two.
    /// The greatest member, absent exactly without one.
    pub fn highest(self) -> Option<u32>
        ensures { Greatest (holds self) result }
    {
        self.bits.checked_ilog2()
    }

    /// How many members there are.
    pub fn count(self) -> u32
        ensures { result ≡ count (holds self) 32 }
    {
        self.bits.count_ones()
    }
}
