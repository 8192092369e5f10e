// Where the part of a cell lies among the numbers of all parts.

/// `len` numbers, from place `start` on. 16 bits do for both: a constraint names three cells at most, so that there are no
/// more than 3 · 512 numbers.
#[derive(Clone, Copy)]
pub struct Part {
    pub start: u16,
    pub len: u16,
}
