// The class of a byte, by a table.

ghost use Rattle.std.specs.Prelude.{◌≡◌};
ghost use Rattle.words.specs.Class.{class_of};

// The classes are published as numbers from 0 to 5 in this table, so they stay numbers and the table stays bytes.
/// The class of each byte: 1 for letters, `_` and `.`; 2 for digits; 3 for the space; 4 for the byte that ends a line;
/// 5 for the bytes of symbols; else 0.
pub const CLASS: [u8; 256] = [
    0, 0, 0, 0, 0, 0, 0, 0, 0, 0, 4, 0, 0, 0, 0, 0, 0, 0, 0, 0, 0, 0, 0, 0, 0, 0, 0, 0, 0, 0, 0, 0,
    3, 0, 0, 0, 0, 0, 0, 0, 5, 5, 0, 5, 0, 0, 1, 0, 2, 2, 2, 2, 2, 2, 2, 2, 2, 2, 5, 0, 5, 5, 0, 0,
    0, 1, 1, 1, 1, 1, 1, 1, 1, 1, 1, 1, 1, 1, 1, 1, 1, 1, 1, 1, 1, 1, 1, 1, 1, 1, 1, 0, 0, 0, 0, 1,
    0, 1, 1, 1, 1, 1, 1, 1, 1, 1, 1, 1, 1, 1, 1, 1, 1, 1, 1, 1, 1, 1, 1, 1, 1, 1, 1, 0, 0, 0, 0, 0,
    0, 0, 0, 0, 0, 0, 0, 0, 0, 0, 0, 0, 0, 0, 0, 0, 0, 0, 0, 0, 0, 0, 0, 0, 0, 0, 0, 0, 0, 0, 0, 0,
    0, 0, 0, 0, 0, 0, 0, 0, 0, 0, 0, 0, 0, 0, 0, 0, 0, 0, 0, 0, 0, 0, 0, 0, 0, 0, 0, 0, 0, 0, 0, 0,
    0, 0, 0, 0, 0, 0, 0, 0, 0, 0, 0, 0, 0, 0, 0, 0, 0, 0, 0, 0, 0, 0, 0, 0, 0, 0, 0, 0, 0, 0, 0, 0,
    0, 0, 0, 0, 0, 0, 0, 0, 0, 0, 0, 0, 0, 0, 0, 0, 0, 0, 0, 0, 0, 0, 0, 0, 0, 0, 0, 0, 0, 0, 0, 0,
];

/// The class of letters, `_` and `.`.
pub const LETTER: u8 = 1;

/// The class of digits.
pub const DIGIT: u8 = 2;

/// The class of the space.
pub const SPACE: u8 = 3;

/// The class of the byte that ends a line.
pub const END: u8 = 4;

/// The class of the bytes of symbols.
pub const SYMBOL: u8 = 5;

/// The class of a byte.
pub fn class_of(b: u8) -> u8
    ensures { result ≡ class_of b }
{
    CLASS[b as usize]
}
