// What a number leaves by a power of two.
ghost use Rattle.std.specs.Prelude.{◌^◌, ◌<◌, ◌≤◌};

/// The numbers n for which n - r is a multiple of 2^k.
#[derive(Clone, Copy, PartialEq, Eq, Debug)]
pub struct Residue {
    pub k: u32,
    pub r: u32,
    ghost fine: { k ≤ 24 },
    ghost below: { r < 2 ^ k },
}
