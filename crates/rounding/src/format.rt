// The two formats of floats, and what the functions over both ask of each: how many digits it has, and the machine's own tests and conversions.
ghost use Rattle.std.specs.Prelude.{◌≡◌, ℕ, ◌+◌, ◌*◌, ◌/◌, ◌^◌, ◌<◌, ◌≤◌, not, refl, IsTrue, is_nan, from_bits, to_bits, Float};
ghost use Rattle.std.specs.Float.{Format, binary32, binary64, nan, NotNan, NotNanBits};
ghost use Rattle.std.specs.Float.Ieee.{prec, low, hid, ones, top, eq, lt, fits};

use crate::whole_root;
use crate::whole_root::{Rooted, Topped};
use std::num::{
    f32_from_bits_with_nan, f32_to_bits_with_nan, f64_from_bits_with_nan, f64_to_bits_with_nan,
};

// Not handed out, since two of its methods ask something of their caller. `value` is the float itself, and `number` a pattern as a number: at `f64` and at `f32` both change nothing.
pub trait Binary: Copy {
    type Bits: Copy;

    // The digits after the leading one.
    const DIGITS: u64;

    // The smallest value above zero is 2^-LEAST.
    const LEAST: u64;

    // The pattern of the infinity.
    const INFINITE: u64;

    ghost DIGITS: { ℕ };

    ghost LEAST: { ℕ };

    ghost INFINITE: { ℕ };

    ghost format: { Format };

    ghost value: { Self → Float };

    ghost number: { Self.Bits → ℕ };

    fn is_nan(self) -> bool
        ensures { result ≡ is_nan (value self) };

    fn is_zero(self) -> bool
        ensures { result ≡ eq (value self) (from_bits format 0) };

    fn is_below_zero(self) -> bool
        ensures { result ≡ lt (value self) (from_bits format 0) };

    fn not_a_number() -> Self
        ensures { value result ≡ nan };

    fn of_bits(b: Self::Bits) -> Self
        ensures { value result ≡ from_bits format (number b) };

    fn bits(self) -> Self::Bits
        ensures { number result ≡ to_bits format (value self) };

    // The two conversions without a test for a NaN.
    fn read(n: u64) -> Self
        requires fits { n < 2 * top format }
        requires no_nan { NotNanBits format n }
        ensures { value result ≡ from_bits format n };

    fn pattern(self) -> u64
        requires { NotNan (value self) }
        ensures is { result ≡ to_bits format (value self) }
        ensures held { IsTrue (fits format (value self)) };

    // The root of a * 4^n / 2^64 for n digits, two more than DIGITS.
    fn whole_root(a: Topped) -> Rooted
        ensures { result.root * result.root + result.rest ≡ a.word * 4 ^ (DIGITS + 2) / 2 ^ 64 };

    ghost digits_is: { prec format ≡ DIGITS + 1 };

    ghost least_is: { low format ≡ LEAST };

    ghost infinite_is: { INFINITE ≡ ones format * hid format };
}

// Stays (no plainer): the impls of the two widths are alike where they call the width's own conversions, of which the library has no trait.
impl Binary for f64 {
    type Bits = u64;

    const DIGITS: u64 = 52;

    const LEAST: u64 = 1074;

    const INFINITE: u64 = 0x7ff0_0000_0000_0000;

    ghost DIGITS = { 52 };

    ghost LEAST = { 1074 };

    ghost INFINITE = { 0x7ff0000000000000 };

    ghost format = { binary64 };

    ghost value = { λ x. x };

    ghost number = { λ n. n };

    ghost digits_is = { refl };

    ghost least_is = { refl };

    ghost infinite_is = { refl };

    fn is_nan(self) -> bool {
        f64::is_nan(self)
    }

    fn is_zero(self) -> bool {
        self == 0.0
    }

    fn is_below_zero(self) -> bool {
        self < 0.0
    }

    #[tactic(auto, unfolding(std::specs::Prelude::from_bits))]
    fn not_a_number() -> f64 {
        f64::NAN
    }

    fn of_bits(b: u64) -> f64 {
        f64_from_bits_with_nan(b)
    }

    fn bits(self) -> u64 {
        f64_to_bits_with_nan(self)
    }

    fn read(n: u64) -> f64 {
        f64::from_bits(n)
    }

    fn pattern(self) -> u64 {
        f64::to_bits(self)
    }

    fn whole_root(a: Topped) -> Rooted {
        whole_root::double(a)
    }
}

impl Binary for f32 {
    type Bits = u32;

    const DIGITS: u64 = 23;

    const LEAST: u64 = 149;

    const INFINITE: u64 = 0x7f80_0000;

    ghost DIGITS = { 23 };

    ghost LEAST = { 149 };

    ghost INFINITE = { 0x7f800000 };

    ghost format = { binary32 };

    ghost value = { λ x. x };

    ghost number = { λ n. n };

    ghost digits_is = { refl };

    ghost least_is = { refl };

    ghost infinite_is = { refl };

    fn is_nan(self) -> bool {
        f32::is_nan(self)
    }

    fn is_zero(self) -> bool {
        self == 0.0
    }

    fn is_below_zero(self) -> bool {
        self < 0.0
    }

    #[tactic(auto, unfolding(std::specs::Prelude::from_bits))]
    fn not_a_number() -> f32 {
        f32::NAN
    }

    fn of_bits(b: u32) -> f32 {
        f32_from_bits_with_nan(b)
    }

    fn bits(self) -> u32 {
        f32_to_bits_with_nan(self)
    }

    fn read(n: u64) -> f32 {
        f32::from_bits(n as u32)
    }

    fn pattern(self) -> u64 {
        u64::from(f32::to_bits(self))
    }

    fn whole_root(a: Topped) -> Rooted {
        whole_root::single(a)
    }
}
