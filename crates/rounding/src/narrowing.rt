// Between `f64` and `f32`.
ghost use Rattle.std.specs.Prelude.{◌≡◌, ◌+◌, ◌^◌, ◌≤◌, Bool, if◌then◌else◌, from_bits, to_bits};
ghost use Rattle.std.specs.Float.{binary32, binary64};
ghost use Rattle.rounding.specs.Narrow.{narrowed};

use crate::pattern::{Parts, nearest, take_apart};

// The pattern of an `f32`, of a number at or above zero, or an infinity, whose pattern as an `f64` is a. The contract has both signs, s.
// From the place 896 on a number is normal as an `f32`, and 29 digits go; below that more go, and past 63 nothing is left.
fn narrow_bits(a: u64) -> u64
    requires { a ≤ 0x7ff0_0000_0000_0000 }
    ensures { ((s : Bool)
        → (if s then 2 ^ 31 else 0) + result ≡ to_bits binary32 (narrowed (from_bits binary64 ((if s then 2 ^ 63 else 0) + a))))
        × (result ≤ 0x7f80_0000) }
{
    if a == 0x7ff0_0000_0000_0000 {
        return 0x7f80_0000;
    }
    let Parts { digits, place } = take_apart(a, 52);
    if place < 896 {
        let d = 925 - place;
        if d < 64 { nearest(digits, d) } else { 0 }
    } else {
        let r = ((place - 896) << 23) + nearest(digits, 29);
        if r < 0x7f80_0000 { r } else { 0x7f80_0000 }
    }
}

// x as the nearest `f32`, a tie to the even one, and an infinity past the largest.
// Stays (form of 01): "Both are proved over whole numbers", of the root and the narrowing, which are delivered by themselves.
pub fn narrow(x: f64) -> f32
    ensures { result ≡ narrowed x }
{
    if x != x {
        return 0.0 / 0.0;
    }
    let b = f64::to_bits(x);
    if b < 0x8000_0000_0000_0000 {
        f32::from_bits(narrow_bits(b) as u32)
    } else {
        f32::from_bits((narrow_bits(b - 0x8000_0000_0000_0000) + 0x8000_0000) as u32)
    }
}

// x as an `f64`, which holds it.
pub fn widen(x: f32) -> f64
    ensures { result ≡ x }
{
    std::num::f32_to_f64_with_nan(x)
}
