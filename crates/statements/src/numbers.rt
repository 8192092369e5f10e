// The numbers that statements and facts are about: U, the whole numbers from -M to M.
ghost use Rattle.std.specs.Prelude.{◌≡◌};
ghost use Rattle.statements.specs.Numbers.{inside, top, bottom, raised, lowered};

/// M, the highest number of U.
pub const TOP: i64 = 4_294_967_295;

/// -M, the lowest number of U.
pub const BOTTOM: i64 = -4_294_967_295;

/// Is n a number of U?
pub fn is_number(n: i64) -> bool
    ensures { result ≡ inside bottom top n }
{
    (BOTTOM..=TOP).contains(&n)
}

/// A lower end, raised to at least -M.
pub fn raised(lo: i64) -> i64
    ensures { result ≡ raised lo }
{
    lo.max(BOTTOM)
}

// It mirrors raised: with a direction to pass, one function would be longer than the two.
/// An upper end, lowered to at most M.
pub fn lowered(hi: i64) -> i64
    ensures { result ≡ lowered hi }
{
    hi.min(TOP)
}
