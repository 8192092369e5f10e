// The two texts of a plan, which names are parts of.
ghost use Rattle.std.specs.Prelude.{◌≡◌};
ghost use Rattle.std.specs.List.{slice_get};
ghost use Rattle.std.specs.Option.{option_copied};
ghost use Rattle.plan.specs.Names.{texts_of, part_of};

use crate::place::Place;

/// The chip text and the project text: text 0 and text 1 of a plan.
#[derive(Clone, Copy)]
pub struct Texts<'a> {
    pub chip: &'a [u8],
    pub project: &'a [u8],
}

impl<'a> Texts<'a> {
    /// A text by its number, absent from 2 on.
    pub fn get(self, text: usize) -> Option<&'a [u8]>
        ensures { option_copied result ≡ slice_get (texts_of self.entry) text }
    {
        match text {
            0 => Some(self.chip),
            1 => Some(self.project),
            _ => None,
        }
    }

    /// The bytes at a place, absent where its text is too short or is neither of the two.
    pub fn part(self, place: Place) -> Option<&'a [u8]>
        ensures { option_copied result ≡ part_of (texts_of self.entry) place }
    {
        let text = self.get(place.text)?;
        let end = place.start.checked_add(place.len)?;
        text.get(place.start..end)
    }
}
