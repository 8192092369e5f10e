// Telling a cell of a lent table.
ghost use Rattle.std.specs.Prelude.{◌≡◌, ◌<◌, true, length, if◌then◌else◌, nat_lt};
ghost use Rattle.plan.specs.Known.{owner_known};
ghost use Rattle.plan.specs.Placements.{owned_by};
ghost use Rattle.telling.specs.Tables.{changed};
ghost use Rattle.telling.specs.Telling.{after_told, after_tell};
ghost use Rattle.cells.specs.Meaning.{tags_of, table_of, FitTell};

use crate::cell::Cell;
use crate::reads::Reading;
use crate::reasons::Reasons;
use facts::kind::Kind;
use forms::tell::Tell;

/// Tells cell x the fact g for reasons s, and answers whether that changes its fact. Where there is no cell x nothing
/// changes.
pub fn tell<K: Kind>(table: &mut [Cell<K>], x: usize, g: K, s: Reasons) -> bool
    ensures table { table_of K.model table.new ≡ (if nat_lt x (length table.old) then after_told K.model x g (tags_of s) (table_of K.model table.old) else table_of K.model table.old) }
    ensures change { result ≡ changed K.model (table_of K.model table.old) (table_of K.model table.new) x }
{
    if x >= table.len() {
        return false;
    }
    let old = table[x];
    let new = old.told(g, s);
    table[x] = new;
    !old.fact.same(new.fact)
}

// Makes a tell of a constraint with that owner, where its condition holds, and answers whether that changes its target's fact.
pub(crate) fn make<K: Kind>(table: &mut [Cell<K>], owner: Option<usize>, t: Tell) -> bool
    requires owner { owner_known 32 owner ≡ true }
    requires fit { FitTell (length table.old) t }
    ensures table { table_of K.model table.new ≡ after_tell K.model (owned_by owner) t (table_of K.model table.old) }
    ensures change { result ≡ changed K.model (table_of K.model table.old) (table_of K.model table.new) t.target }
{
    let reading = Reading { table, tell: t };
    if !reading.is_made() {
        return false;
    }
    let s = Reasons::owned(owner).union(reading.reasons());
    let g = K::state(reading.said());
    tell(table, t.target, g, s)
}
