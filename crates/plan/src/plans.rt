// Plans: the empty one, what a plan holds, and a draft made into a plan.
ghost use Rattle.std.specs.Prelude.{◌≡◌, is_ok, length};
ghost use Rattle.std.specs.List.{slice_get};
ghost use Rattle.plan.specs.Known.{all_below, owner_known, ranged, known, all_known};
ghost use Rattle.plan.specs.Forms.{named};
ghost use Rattle.plan.specs.Items.{nothing, planned, drafted, few, fits, filled};

use crate::constraint::{Constraint, Form};
use crate::draft::Draft;
use crate::named::named;
use crate::place::Place;
use crate::plan::Plan;
use statements::numbers::is_number;
use std::alloc::Global;

/// How many cells a plan may have.
pub const CELLS: usize = 256;

/// How many premises a plan may have.
pub const PREMISES: usize = 32;

/// How many constraints a plan may have.
pub const CONSTRAINTS: usize = 512;

/// Why a draft is refused: no plan may hold it.
#[derive(Clone, Copy, Debug, PartialEq, Eq)]
pub struct Unfit;

fn is_named_below(form: Form, cells: usize) -> bool
    ensures { result ≡ all_below cells (named form) }
{
    named(form).all(|c| c < cells)
}

fn is_ranged(form: Form) -> bool
    ensures { result ≡ ranged form }
{
    match form {
        Form::Gap(_, d, _) => is_number(d),
        _ => true,
    }
}

fn is_owner_known(owner: Option<usize>, premises: usize) -> bool
    ensures { result ≡ owner_known premises owner }
{
    owner.is_none_or(|p| p < premises)
}

/// Whether a constraint names only the first `cells` cells and the first `premises` premises, with its numbers in their
/// ranges.
pub fn is_known(k: Constraint, cells: usize, premises: usize) -> bool
    ensures { result ≡ known cells premises k }
{
    is_named_below(k.form, cells) && is_owner_known(k.owner, premises) && is_ranged(k.form)
}

fn are_known(constraints: &[Constraint], cells: usize, premises: usize) -> bool
    ensures { result ≡ all_known cells premises constraints.now }
{
    constraints.iter().all(|k| is_known(*k, cells, premises))
}

impl Draft {
    /// The draft that holds nothing.
    pub fn new(heap: Global) -> Draft
        ensures { drafted result ≡ nothing }
    {
        Draft {
            cells: Vec::new(heap),
            premises: Vec::new(heap),
            constraints: Vec::new(heap),
        }
    }

    /// Whether there are at most as many cells, premises and constraints as a plan may have.
    pub fn is_few(&self) -> bool
        ensures { result ≡ few (drafted self.now) }
    {
        self.cells.len() <= CELLS
            && self.premises.len() <= PREMISES
            && self.constraints.len() <= CONSTRAINTS
    }

    /// Whether a plan may hold this.
    pub fn is_fit(&self) -> bool
        ensures { result ≡ fits (drafted self.now) }
    {
        let cells = self.cells.len();
        let premises = self.premises.len();
        self.is_few() && are_known(self.constraints.as_slice(), cells, premises)
    }

    fn clear(&mut self)
        ensures { drafted self.new ≡ nothing }
    {
        self.constraints.clear();
        self.premises.clear();
        self.cells.clear();
    }
}

impl Plan {
    /// The plan that holds nothing.
    pub fn new(heap: Global) -> Plan
        ensures { planned result ≡ nothing }
    {
        Plan {
            draft: Draft::new(heap),
        }
    }

    /// Takes everything out.
    pub fn clear(&mut self)
        ensures { planned self.new ≡ nothing }
    {
        self.draft.clear();
    }

    /// Makes this the plan of a draft, whatever it was before; where no plan may hold the draft, that is refused, and
    /// the plan is empty.
    pub fn fill(&mut self, draft: Draft) -> Result<(), Unfit>
        ensures told { is_ok result ≡ fits (drafted draft) }
        ensures holds { planned self.new ≡ filled (drafted draft) }
    {
        if !draft.is_fit() {
            self.clear();
            return Err(Unfit);
        }
        *self = Plan { draft };
        Ok(())
    }

    /// The cells in the order of their making; a helper has no place.
    pub fn cells(&self) -> &[Option<Place>]
        ensures { result.now ≡ (planned self.now).cells }
    {
        &self.draft.cells
    }

    /// The places of the premises in the order of their making.
    pub fn premises(&self) -> &[Place]
        ensures { result.now ≡ (planned self.now).premises }
    {
        &self.draft.premises
    }

    /// The constraints in the order of their making.
    pub fn constraints(&self) -> &[Constraint]
        ensures { result.now ≡ (planned self.now).constraints }
    {
        &self.draft.constraints
    }

    /// How many cells there are.
    pub fn cell_count(&self) -> usize
        ensures { result ≡ length (planned self.now).cells }
    {
        self.draft.cells.len()
    }

    /// How many premises there are.
    pub fn premise_count(&self) -> usize
        ensures { result ≡ length (planned self.now).premises }
    {
        self.draft.premises.len()
    }

    /// How many constraints there are.
    pub fn constraint_count(&self) -> usize
        ensures { result ≡ length (planned self.now).constraints }
    {
        self.draft.constraints.len()
    }

    /// A constraint by its number, absent where there is none.
    pub fn constraint(&self, i: usize) -> Option<Constraint>
        ensures { result ≡ slice_get (planned self.now).constraints i }
    {
        self.constraints().get(i).copied()
    }
}
