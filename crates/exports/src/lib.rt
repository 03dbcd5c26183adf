// The functions for C and Rust to link (tools/build/library). Each hands its arguments to the function of the same name and promises the same. A NaN
// that they answer or write has the bits 7FF8000000000000 (f32: 7FC00000).
// Stays (C interface): a C name has one type, so the two roots here, one function of `rounding`, are a name for each width.
#![tactic(auto)]

mod parts; // parts.rt: the median and the matcher
mod call; // call.rt: the refinement call
mod intake; // intake.rt: the record reader
mod places; // places.rt: what goes out in lent lists

ghost use Rattle.std.specs.Prelude.{◌≡◌};
ghost use Rattle.std.specs.Float.{binary32, binary64};
ghost use Rattle.rounding.specs.Root.{root};
ghost use Rattle.rounding.specs.Narrow.{narrowed};

use rounding::canonical;

#[unsafe(no_mangle)]
pub extern "C" fn raqembu_sqrt64(x: f64) -> f64
    ensures { result ≡ root binary64 x }
{
    canonical(rounding::sqrt(x))
}

#[unsafe(no_mangle)]
pub extern "C" fn raqembu_sqrt32(x: f32) -> f32
    ensures { result ≡ root binary32 x }
{
    canonical(rounding::sqrt(x))
}

#[unsafe(no_mangle)]
pub extern "C" fn raqembu_narrow(x: f64) -> f32
    ensures { result ≡ narrowed x }
{
    canonical(rounding::narrow(x))
}

#[unsafe(no_mangle)]
pub extern "C" fn raqembu_widen(x: f32) -> f64
    ensures { result ≡ x }
{
    canonical(rounding::widen(x))
}
