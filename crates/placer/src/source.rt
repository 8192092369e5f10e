// The lines and words of a text, as a message shows them.
use plan::texts::Texts;
use std::fmt;
use words::{DIGIT, LETTER, class_of, run_len};

/// A sheet: the file that it stands in, and its text.
#[derive(Clone, Copy)]
pub struct Sheet<'a> {
    pub file: &'a str,
    pub text: &'a [u8],
}

/// The two sheets of a check.
#[derive(Clone, Copy)]
pub struct Sheets<'a> {
    pub chip: Sheet<'a>,
    pub project: Sheet<'a>,
}

impl<'a> Sheets<'a> {
    // By the number that a fault holds.
    /// The chip sheet for 0, the project sheet for 1.
    pub(crate) fn sheet(self, text: usize) -> Sheet<'a> {
        if text == 0 { self.chip } else { self.project }
    }

    /// The texts of the two.
    pub(crate) fn texts(self) -> Texts<'a> {
        Texts {
            chip: self.chip.text,
            project: self.project.text,
        }
    }
}

/// Bytes as text: those that are no printable ASCII as `?`, a tab and a carriage return as a space.
#[derive(Clone, Copy)]
pub struct Shown<'a>(pub &'a [u8]);

/// A line with a caret below one of its columns.
#[derive(Clone, Copy)]
pub struct Pointed<'a> {
    pub line: &'a [u8],
    pub column: usize,
}

// How many bytes of a long line a message shows before the caret, and how many in all.
const BEFORE: usize = 60;

const MOST: usize = 100;

/// Whether a byte ends a line.
pub(crate) fn is_end(b: &u8) -> bool {
    *b == b'\n'
}

/// Line `number` of a text, from 1; no bytes where there is no such line.
pub(crate) fn line_of(text: &[u8], number: usize) -> &[u8] {
    text.split(is_end)
        .nth(number.saturating_sub(1))
        .unwrap_or(&[])
}

/// The text before line `number`.
pub(crate) fn before(text: &[u8], number: usize) -> &[u8] {
    let end = text
        .split_inclusive(is_end)
        .take(number.saturating_sub(1))
        .fold(0usize, |end, line| end.saturating_add(line.len()));
    text.get(..end).unwrap_or(text)
}

// How many bytes the word at the front has.
fn word_len(bytes: &[u8]) -> usize {
    match bytes {
        [] => 0,
        [b'<', b'=', ..] => 2,
        [first, ..] => match class_of(*first) {
            class @ (LETTER | DIGIT) => run_len(bytes, class),
            _ => 1,
        },
    }
}

/// The word at a column of a line, or the byte there; no bytes past the line's end.
pub(crate) fn word_at(line: &[u8], column: usize) -> &[u8] {
    let rest = line.get(column.saturating_sub(1)..).unwrap_or(&[]);
    rest.get(..word_len(rest)).unwrap_or(rest)
}

// The character that stands for a byte.
fn shown_as(b: u8) -> char {
    match b {
        b' '..=b'~' => char::from(b),
        b'\t' | b'\r' => ' ',
        _ => '?',
    }
}

impl fmt::Display for Shown<'_> {
    fn fmt<W: fmt::Write>(&self, f: &mut fmt::Formatter<W>) -> fmt::Result {
        for b in self.0.iter().take(MOST) {
            f.write_char(shown_as(*b))?;
        }
        if self.0.len() > MOST {
            f.write_str("...")?;
        }
        Ok(())
    }
}

impl fmt::Display for Pointed<'_> {
    fn fmt<W: fmt::Write>(&self, f: &mut fmt::Formatter<W>) -> fmt::Result {
        let at = self.column.saturating_sub(1);
        let shown = Shown(self.line.get(at.saturating_sub(BEFORE)..).unwrap_or(&[]));
        let width = at.min(BEFORE) + 1;
        writeln!(f, "    {shown}")?;
        writeln!(f, "    {:>width$}", "^")
    }
}
