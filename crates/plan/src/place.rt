// Where a name stands.

/// A part of a text: `len` bytes from byte `start` of text `text` on, 0 for the chip text and 1 for the project text.
#[derive(Clone, Copy, Debug, PartialEq, Eq)]
pub struct Place {
    // A number, as callers may hold any: an enum of the two texts would be a narrower type, and so ask more of them.
    pub text: usize,
    pub start: usize,
    pub len: usize,
}
