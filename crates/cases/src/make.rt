// The texts of a case, made from how the table writes them.
ghost use Rattle.std.specs.Prelude.{◌<◌};

use std::alloc::{AllocError, Global};
use std::io;
use std::io::Write;

// The value of a hexadecimal digit in small letters; 0 for any other byte.
fn hex(b: u8) -> u8
    ensures { result < 16 }
{
    match b {
        b'0'..=b'9' => b - b'0',
        b'a'..=b'f' => b - b'a' + 10,
        _ => 0,
    }
}

// The byte that a letter after a backslash stands for.
fn escaped(b: u8) -> u8 {
    match b {
        b'n' => b'\n',
        b'r' => b'\r',
        b't' => b'\t',
        b's' => b' ',
        _ => b,
    }
}

// One copy of a text: its escapes are read, and `#` stands for the number of the copy. An escape that its text cuts off
// stands for nothing.
fn add_copy(out: &mut Vec<u8>, text: &[u8], copy: usize) -> io::Result<()> {
    let mut rest = text;
    loop {
        rest = match rest {
            [b'\\', b'x', high, low, after @ ..] => {
                out.push(hex(*high) * 16 + hex(*low))?;
                after
            }
            [] | [b'\\'] | [b'\\', b'x', ..] => return Ok(()),
            [b'\\', b, after @ ..] => {
                out.push(escaped(*b))?;
                after
            }
            [b'#', after @ ..] => {
                write!(out, "{copy}")?;
                after
            }
            [b, after @ ..] => {
                out.push(*b)?;
                after
            }
        };
    }
}

// The number that digits write; what is no digit counts for nothing.
fn number(digits: &[u8]) -> usize {
    digits.iter().filter(|b| b.is_ascii_digit()).fold(
        0usize,
        |n, b| n.saturating_mul(10).saturating_add(usize::from(hex(*b))),
    )
}

// A piece of a text: `@N TEXT` is N copies of TEXT, anything else one copy of itself.
fn add_piece(out: &mut Vec<u8>, piece: &[u8]) -> io::Result<()> {
    let [b'@', copies @ ..] = piece else {
        return add_copy(out, piece, 0);
    };
    let mut parts = copies.splitn(2, |b| *b == b' ');
    let count = parts.next().unwrap_or(&[]);
    let text = parts.next().unwrap_or(&[]);
    for copy in 0..number(count) {
        add_copy(out, text, copy)?;
    }
    Ok(())
}

/// The text that a field of the table stands for: its pieces, between `&`s, one after the other.
pub(crate) fn text(heap: Global, field: &[u8]) -> io::Result<Vec<u8>> {
    let mut out = Vec::new(heap);
    for piece in field.split(|b| *b == b'&') {
        add_piece(&mut out, piece)?;
    }
    Ok(out)
}
