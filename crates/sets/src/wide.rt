// Sets of numbers below 512, in sixteen parts of 32 numbers each.
ghost use Rattle.sets.specs.Parts.{Marks, Fit};

use crate::small::Set32;

/// A set of numbers below 512: part `i` has the numbers from `32 * i` on, counted from there. The set
/// `used` marks the parts with a member, so that the lowest member is found without a walk over the parts.
#[derive(Drop)]
pub struct Set512 {
    parts: [Set32; 16],
    used: Set32,
    ghost marks: { Marks used parts },
    ghost fits: { Fit parts },
}

impl Set512 {
    ghost use Rattle.std.specs.Prelude.{◌≡◌, ℕ, ◌<◌, true, MatchBool, slice_set};
    ghost use Rattle.sets.specs.Members.{Nobody, Joined, Parted, Least};
    ghost use Rattle.sets.specs.Wide.{holds_wide};

    /// The set without a member.
    pub fn none() -> Set512
        ensures { Nobody (holds_wide result) }
    {
        Set512 {
            parts: [Set32::none(); 16],
            used: Set32::none(),
        }
    }

    // Every change of the set goes through here, so that a part and its mark change together.
    fn write(&mut self, i: usize, part: Set32)
        requires { i < 16 }
        ensures { self.new.parts ≡ slice_set self.old.parts i part }
    {
        self.parts[i] = part;
        self.used = if part.is_empty() {
            self.used.remove(i as u32)
        } else {
            self.used.insert(i as u32)
        };
    }

    /// Whether `n` is a member; no number from 512 on is.
    pub fn has(&self, n: usize) -> bool
        ensures { result ≡ holds_wide self.now n }
    {
        n < 512 && self.parts[n / 32].has((n % 32) as u32)
    }

    /// Adds `n`; from 512 on it changes nothing.
    pub fn insert(&mut self, n: usize)
        ensures { Joined 512 (holds_wide self.old) n (holds_wide self.new) }
    {
        if n < 512 {
            self.write(n / 32, self.parts[n / 32].insert((n % 32) as u32));
        }
    }

    /// Removes `n`; from 512 on it changes nothing, as there is no such member.
    pub fn remove(&mut self, n: usize)
        ensures { Parted (holds_wide self.old) n (holds_wide self.new) }
    {
        if n < 512 {
            self.write(n / 32, self.parts[n / 32].remove((n % 32) as u32));
        }
    }

    /// Whether there is no member.
    pub fn is_empty(&self) -> bool
        ensures { MatchBool result (Nobody (holds_wide self.now)) ((k : ℕ) × holds_wide self.now k ≡ true) }
    {
        self.used.is_empty()
    }

    /// The least member, absent exactly without one.
    pub fn lowest(&self) -> Option<usize>
        ensures { Least (holds_wide self.now) result }
    {
        let i = self.used.lowest()? as usize;
        let place = self.parts[i].lowest()? as usize;
        Some(32 * i + place)
    }
}
