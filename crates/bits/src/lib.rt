#![tactic(auto)]

// Keys as bits: what stands above a height, and the height where two keys part.
ghost use Rattle.std.specs.Prelude.{◌≡◌, ◌*◌, ◌/◌, ◌^◌, ◌≤◌};
ghost use Rattle.bits.specs.Bits.{part_height};

// The bits of x above height h. The casts stay: over `u64::from` the proof of `cut` did not close.
pub fn above(x: u32, h: u32) -> u64
    requires { h ≤ 32 }
    ensures { result ≡ x / 2 ^ h }
{
    (x as u64) >> (h as u64)
}

// x with its low h bits 0.
pub fn cut(x: u32, h: u32) -> u32
    requires { h ≤ 32 }
    ensures { result ≡ x / 2 ^ h * 2 ^ h }
{
    (above(x, h) << (h as u64)) as u32
}

// The least height above which x and y have the same bits: 0 exactly if they are equal, 32 if they differ in bit 31.
pub fn part_height(x: u32, y: u32) -> u32
    ensures { result ≡ part_height x y }
{
    32 - u32::leading_zeros(x ^ y)
}
