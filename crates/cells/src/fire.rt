// Firing a constraint over a lent table.
ghost use Rattle.std.specs.Prelude.{◌≡◌, ◌<◌, true, length};
ghost use Rattle.facts.specs.Derived.{none};
ghost use Rattle.plan.specs.Forms.{named};
ghost use Rattle.plan.specs.Known.{known};
ghost use Rattle.plan.specs.Placements.{owned_by};
ghost use Rattle.forms.specs.Tells.{tells};
ghost use Rattle.telling.specs.Tables.{facts, reasons_of};
ghost use Rattle.telling.specs.Firing.{any_in_conflict, after_tells, after_deads, tells_change, deads_change};
ghost use Rattle.cells.specs.Meaning.{tags_of, table_of, Inside};
ghost use Rattle.cells.specs.Changes.{changed_cells, Fired};

use crate::cell::Cell;
use crate::changed::Changed;
use crate::reasons::Reasons;
use crate::tell::{make, tell};
use facts::kind::Kind;
use forms::tells::tells;
use plan::constraint::{Constraint, Form};
use plan::named::named;
use plan::plans::{PREMISES, is_known};
use statements::numbers::{BOTTOM, TOP};
use statements::statement::Statement;

/// Whether a constraint can be fired over n cells: it names only these, its owner is below 32, and its distances are in
/// their ranges. Every constraint of a plan with n cells can be.
pub fn can_fire(k: Constraint, n: usize) -> bool
    ensures { result ≡ known n 32 k }
{
    is_known(k, n, PREMISES)
}

// Whether cell x is in conflict.
fn conflict_at<K: Kind>(table: &[Cell<K>], x: usize) -> bool
    requires { x < length table.now }
    ensures { result ≡ none K.model (table_of K.model table.now x).fact }
{
    table[x].in_conflict()
}

// Whether a cell that the form names is in conflict.
fn has_conflict<K: Kind>(table: &[Cell<K>], form: Form) -> bool
    requires { Inside (length table.now) (named form) }
    ensures { result ≡ any_in_conflict K.model (facts (table_of K.model table.now)) (named form) }
{
    named(form).any(|x| conflict_at(table, x))
}

// The reasons of the cells that the form names.
fn form_reasons<K: Kind>(table: &[Cell<K>], form: Form) -> Reasons
    requires { Inside (length table.now) (named form) }
    ensures { tags_of result ≡ reasons_of (table_of K.model table.now) (named form) }
{
    let mut all = Reasons::none();
    for x in named(form) {
        all = all.union(table[x].reasons);
    }
    all
}

// Functions over the table and the constraint, and no struct that holds both: each method that writes would have to promise
// that its struct keeps the lent table, in place of asking that the constraint can be fired.

// Tells each cell that the constraint names that no number is allowed, for the constraint's owner and the reasons of every
// cell that it names.
fn make_deads<K: Kind>(table: &mut [Cell<K>], k: Constraint) -> Changed
    requires { known (length table.old) 32 k ≡ true }
    ensures table { table_of K.model table.new ≡ after_deads K.model (owned_by k.owner) (named k.form) (named k.form) (table_of K.model table.old) }
    ensures cells { changed_cells result ≡ deads_change K.model (owned_by k.owner) (named k.form) (named k.form) (table_of K.model table.old) }
{
    let mut out = Changed::none();
    for x in named(k.form) {
        let s = Reasons::owned(k.owner).union(form_reasons(table, k.form));
        if tell(table, x, K::state(Statement::Between(TOP, BOTTOM)), s) {
            out.push(x);
        }
    }
    out
}

// Makes the constraint's tells in their order, until one puts its cell in conflict.
fn make_tells<K: Kind>(table: &mut [Cell<K>], k: Constraint) -> Changed
    requires { known (length table.old) 32 k ≡ true }
    ensures table { table_of K.model table.new ≡ after_tells K.model (owned_by k.owner) (tells k.form) (table_of K.model table.old) }
    ensures cells { changed_cells result ≡ tells_change K.model (owned_by k.owner) (tells k.form) (table_of K.model table.old) }
{
    let mut out = Changed::none();
    for t in tells(k.form) {
        if make(table, k.owner, t) {
            out.push(t.target);
        }
        if conflict_at(table, t.target) {
            break;
        }
    }
    out
}

/// Fires a constraint: its tells are made in their order, until one puts its cell in conflict; or, where a cell that it
/// names is in conflict already, each cell that it names is told that no number is allowed. Answers the cells whose facts
/// changed; absent, and the table untouched, exactly where the constraint can't be fired over a table of this length.
pub fn fire<K: Kind>(table: &mut [Cell<K>], k: Constraint) -> Option<Changed>
    ensures { Fired K.model k table.old result table.new }
{
    if !can_fire(k, table.len()) {
        return None;
    }
    if has_conflict(table, k.form) {
        Some(make_deads(table, k))
    } else {
        Some(make_tells(table, k))
    }
}
