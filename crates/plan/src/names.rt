// Names of cells and premises, as parts of the texts that declared them.
ghost use Rattle.std.specs.Prelude.{◌≡◌, Some, Option};
ghost use Rattle.std.specs.List.{slice_get};
ghost use Rattle.std.specs.Option.{option_copied};
ghost use Rattle.plan.specs.Items.{planned};
ghost use Rattle.plan.specs.Names.{number_of, texts_of, name_at, name_in, cell_name, premise_name, answered, spells, named_by};
ghost use Rattle.plan.specs.declared.place.Place.{Place};

use crate::place::Place;
use crate::plan::Plan;
use crate::texts::Texts;

/// Why a name is refused.
#[derive(Clone, Copy, Debug, PartialEq, Eq)]
pub enum Refusal {
    /// There is no such cell, or no such premise.
    NoSuch = 5,
}

impl Refusal {
    /// The number by which programs know the refusal.
    pub fn number(self) -> u8
        ensures { result ≡ number_of self }
    {
        self as u8
    }
}

/// What a text declares: a cell, which has a place unless it is a helper, or a premise.
pub trait Declared: Copy {
    ghost place: { Self → Option Place };

    /// Where its name stands, absent where it has none.
    fn place(self) -> Option<Place>
        ensures { result ≡ place self };
}

impl Declared for Option<Place> {
    ghost place = { λ cell. cell };

    fn place(self) -> Option<Place> {
        self
    }
}

impl Declared for Place {
    ghost place = { λ premise. Some premise };

    fn place(self) -> Option<Place> {
        Some(self)
    }
}

impl<'a> Texts<'a> {
    /// The name of what was declared: absent for a helper, or where the text is too short or is neither of the two.
    pub fn name<D: Declared>(self, declared: D) -> Option<&'a [u8]>
        ensures { option_copied result ≡ name_at (texts_of self.entry) (D.place declared) }
    {
        self.part(declared.place()?)
    }

    // Whether what was declared has that name. Its place is looked at before its text: most have none, or one of
    // another length.
    fn is_named<D: Declared>(self, declared: D, name: &[u8]) -> bool
        ensures { result ≡ spells (name_at (texts_of self.entry) (D.place declared)) name.now }
    {
        match declared.place() {
            Some(place) if place.len == name.len() => self.part(place) == Some(name),
            _ => false,
        }
    }
}

/// The number of what was declared under a name, absent where there is none.
pub fn find<D: Declared>(all: &[D], texts: Texts<'_>, name: &[u8]) -> Option<usize>
    ensures { result ≡ named_by D.place (texts_of texts.entry) all.now name.now }
{
    all.iter().position(|d| texts.is_named(*d, name))
}

fn name_in<'a, D: Declared>(
    all: &[D],
    i: usize,
    texts: Texts<'a>,
) -> Result<Option<&'a [u8]>, Refusal>
    ensures { answered result ≡ name_in D.place (texts_of texts.entry) (slice_get all.now i) }
{
    let declared = all.get(i).ok_or(Refusal::NoSuch)?;
    Ok(texts.name(*declared))
}

impl Plan {
    /// The name of a cell, as the part of the text that declared it: absent for a helper, or where the text handed in
    /// is too short; refused where there is no such cell.
    pub fn name<'a>(&self, cell: usize, texts: Texts<'a>) -> Result<Option<&'a [u8]>, Refusal>
        ensures { answered result ≡ cell_name (texts_of texts.entry) (slice_get (planned self.now).cells cell) }
    {
        name_in(self.cells(), cell, texts)
    }

    /// The name of a premise, likewise.
    pub fn premise_name<'a>(
        &self,
        premise: usize,
        texts: Texts<'a>,
    ) -> Result<Option<&'a [u8]>, Refusal>
        ensures { answered result ≡ premise_name (texts_of texts.entry) (slice_get (planned self.now).premises premise) }
    {
        name_in(self.premises(), premise, texts)
    }
}
