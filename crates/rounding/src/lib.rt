// The arithmetic of floats that 01 asks for by itself, as IEEE 754 and Rust have it: the square root and the narrowing, rounded to nearest with
// ties to even and proved over whole numbers, and the widening; the conversions from and to bit patterns; and the methods of `f64` as the run
// uses them, of every float. No public function asks anything of its caller.
#![tactic(auto)]

mod whole_root; // whole_root.rt: the root of a whole number
mod pattern; // pattern.rt: bit patterns, and the one rounding step
mod root; // root.rt: the square root
mod narrowing; // narrowing.rt: between f64 and f32
mod format; // format.rt: the two formats
mod bits; // bits.rt: from and to bit patterns, and the one NaN's pattern
mod methods; // methods.rt: Rust's methods of f64

pub use bits::{canonical, from_bits, to_bits};
pub use methods::{
    abs, clamp, is_finite, is_nan, is_negative, max, min, total_cmp, total_key, total_le,
};
pub use narrowing::{narrow, widen};
pub use root::sqrt;
