// A ring of 512 places: waiting numbers in the order in which they came, each once.
ghost use Rattle.std.specs.Prelude.{◌≡◌, ℕ, ◌<◌, true};
ghost use Rattle.sets.specs.Members.{among, count};
ghost use Rattle.sets.specs.Wide.{holds_wide};
ghost use Rattle.agenda.specs.Orders.{in_order, distinct};

use sets::wide::Set512;

/// The `len` numbers from place `head` on, oldest first; after the last place comes the first one.
/// The set has the same numbers, so that one that waits already is known without a walk.
// An array with a head and a length, and no buffer of a library: an agenda is made without memory and no call allocates.
#[derive(Drop)]
pub struct Ring {
    items: [u16; 512],
    head: usize,
    len: usize,
    members: Set512,
    ghost agrees: { ((k : ℕ) → holds_wide members k ≡ among k (in_order items head len)) },
    ghost once: { distinct (in_order items head len) ≡ true },
    ghost counted: { len ≡ count (holds_wide members) 512 },
    ghost inside: { head < 512 },
}

impl Ring {
    ghost use Rattle.std.specs.Prelude.{[], ◌++◌, MatchBool};
    ghost use Rattle.std.specs.Option.{option_to_list};
    ghost use Rattle.sets.specs.Members.{Nobody, Joined};
    ghost use Rattle.agenda.specs.Orders.{pushed};
    ghost use Rattle.agenda.specs.Rings.{waits_in, from_oldest};
    ghost use Rattle.agenda.specs.Waiting.{Taken};

    /// The ring without a number.
    pub fn new() -> Ring
        ensures none { Nobody (waits_in result) }
        ensures order { from_oldest result ≡ [] }
    {
        Ring {
            items: [0; 512],
            head: 0,
            len: 0,
            members: Set512::none(),
        }
    }

    /// Whether a number waits.
    pub fn any(&self) -> bool
        ensures { MatchBool result ((k : ℕ) × waits_in self.now k ≡ true) (Nobody (waits_in self.now)) }
    {
        !self.members.is_empty()
    }

    /// Adds `k` as the newest; one that waits already keeps its place, and from 512 on nothing changes.
    pub fn put(&mut self, k: usize)
        ensures waiting { Joined 512 (waits_in self.old) k (waits_in self.new) }
        ensures order { from_oldest self.new ≡ pushed k (from_oldest self.old) }
    {
        if k >= 512 || self.members.has(k) {
            return;
        }
        self.items[(self.head + self.len) % 512] = k as u16;
        self.len += 1;
        self.members.insert(k);
    }

    // A function for each end: each reads another place, and only the front moves the head.

    /// Removes the oldest number and answers it, absent exactly if none waits.
    pub fn take_oldest(&mut self) -> Option<usize>
        ensures waiting { Taken (waits_in self.old) result (waits_in self.new) }
        ensures order { from_oldest self.old ≡ option_to_list result ++ from_oldest self.new }
    {
        self.len = self.len.checked_sub(1)?;
        let k = self.items[self.head] as usize;
        self.head = (self.head + 1) % 512;
        self.members.remove(k);
        Some(k)
    }

    /// Removes the newest number and answers it, absent exactly if none waits.
    pub fn take_newest(&mut self) -> Option<usize>
        ensures waiting { Taken (waits_in self.old) result (waits_in self.new) }
        ensures order { from_oldest self.old ≡ from_oldest self.new ++ option_to_list result }
    {
        self.len = self.len.checked_sub(1)?;
        let k = self.items[(self.head + self.len) % 512] as usize;
        self.members.remove(k);
        Some(k)
    }

    /// Removes every number.
    pub fn empty(&mut self)
        ensures none { Nobody (waits_in self.new) }
        ensures order { from_oldest self.new ≡ [] }
    {
        self.len = 0;
        self.members = Set512::none();
    }
}
