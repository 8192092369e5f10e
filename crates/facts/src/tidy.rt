// Lowest, highest, tidy and telling, once for every kind.
ghost use Rattle.std.specs.Prelude.{◌≡◌, ◌+◌, ◌≤◌, map, count_by};
ghost use Rattle.statements.specs.Numbers.{InU};
ghost use Rattle.facts.specs.Derived.{low, high, none, tidy, TidyLaws, told, changes, sizes};

use crate::kind::Kind;
use statements::numbers::{BOTTOM, TOP};
use statements::statement::Statement;

/// The lowest number that f allows, or M where it allows none.
pub fn lowest<K: Kind>(f: K) -> i64
    ensures is { result ≡ low K.model f }
    ensures within { InU result }
{
    f.next(BOTTOM).unwrap_or(TOP)
}

// It mirrors lowest: with a direction to pass, one function would be longer than the two.
/// The highest number that f allows, or -M where it allows none.
pub fn highest<K: Kind>(f: K) -> i64
    ensures is { result ≡ high K.model f }
    ensures within { InU result }
{
    f.last(TOP).unwrap_or(BOTTOM)
}

/// Does f allow no number?
pub fn allows_none<K: Kind>(f: K) -> bool
    ensures { result ≡ none K.model f }
{
    f.next(BOTTOM).is_none()
}

/// f merged with the Between of its lowest and highest.
pub fn tidy<K: Kind>(f: K) -> K
    ensures is { result ≡ tidy K.model f }
    ensures laws { TidyLaws K.model }
{
    f.merge(K::state(Statement::Between(lowest(f), highest(f))))
}

/// f told g: the two merged, and tidied.
pub fn told<K: Kind>(f: K, g: K) -> K
    ensures { result ≡ told K.model g f }
{
    tidy(f.merge(g))
}

/// Tells each fact what s states, and answers how many that changes; their sizes together fall by at least as many.
pub fn narrow<K: Kind>(facts: &mut [K], s: Statement) -> usize
    ensures facts { facts.new ≡ map (told K.model (K.model.stated s)) facts.old }
    ensures count { result ≡ count_by (changes K.model (K.model.stated s)) facts.old }
    ensures falls { sizes K.model facts.new + result ≤ sizes K.model facts.old }
{
    let g = K::state(s);
    let mut changed = 0;
    // Counted beside the writing: a filter that counts would have to write as it looks.
    for f in facts.iter_mut() {
        let before = *f;
        let after = told(before, g);
        if !after.same(before) {
            changed += 1;
        }
        *f = after;
    }
    changed
}
