// Sine and cosine. Quarter turns are taken off until the angle is within an eighth of a turn of 0; how many went says which of the two series
// of the rest is asked for, and its sign.
ghost use Rattle.std.specs.Prelude.{◌≡◌};
ghost use Rattle.std.specs.List.{fold};
ghost use Rattle.rounding.specs.Arith.{◌⊖◌, ◌⊗◌, ◌⊘◌, one64};
ghost use Rattle.angles.specs.SinCos.{quarter_turns, reduced, sine, cosine, mod4, by_quarter, in_reach, sin_cos, sin, cos, cos32};

use rounding::{abs, narrow, widen};
use std::num::saturating_f64_to_u64;

// 2 / π.
const TWO_OVER_PI: f64 = 0.6366197723675814;

// 1.5 * 2^52: a sum with it has no fraction left.
const SHIFT: f64 = 6755399441055744.0;

// π / 2 in two parts, with the bits 3FF921FB54400000 and 3DD0B4611A626331. The first has so few digits that its product with a number
// of quarter turns is exact.
const P1: f64 = 1.5707963267341256;

const P2: f64 = 6.077100506506192e-11;

// Beyond this there is no answer.
const REACH: f64 = 1024.0;

#[derive(Drop)]
pub struct SinCos {
    pub sin: f64,
    pub cos: f64,
}

// The nearest whole number of quarter turns.
#[tactic(auto, unfolding(crate::specs::SinCos::quarter_turns))]
fn quarter_turns(a: f64) -> f64
    ensures { result ≡ quarter_turns a }
{
    a * TWO_OVER_PI + SHIFT - SHIFT
}

// What k quarter turns leave of the angle a.
#[tactic(auto, unfolding(crate::specs::SinCos::reduced))]
fn rest(a: f64, k: f64) -> f64
    ensures { result ≡ reduced a k }
{
    a - k * P1 - k * P2
}

// A bracket for each divisor, from the inside out.
// Stays (no plainer): here and in inverse.rt it is a `fold` of one line; one function for both would take its step as a closure, and be `fold` again.
fn brackets(z: f64, divisors: &[f64], innermost: f64) -> f64
    ensures { result ≡ fold (λ inner d. one64 ⊖ z ⊘ d ⊗ inner) innermost divisors.now }
{
    divisors
        .iter()
        .fold(innermost, |inner, d| 1.0 - z / *d * inner)
}

// The series, from the innermost bracket out.
fn sine_of(x: f64) -> f64
    ensures { result ≡ sine x }
{
    let z = x * x;
    let divisors = [156.0, 110.0, 72.0, 42.0, 20.0, 6.0];
    x * brackets(z, &divisors, 1.0 - z / 210.0)
}

fn cosine_of(x: f64) -> f64
    ensures { result ≡ cosine x }
{
    let z = x * x;
    let divisors = [182.0, 132.0, 90.0, 56.0, 30.0, 12.0, 2.0];
    brackets(z, &divisors, 1.0 - z / 240.0)
}

// k mod 4.
#[tactic(auto, unfolding(crate::specs::SinCos::mod4))]
fn quarter(k: f64) -> u64
    ensures { result ≡ mod4 k }
{
    if k < 0.0 {
        (4 - saturating_f64_to_u64(-k) % 4) % 4
    } else {
        saturating_f64_to_u64(k) % 4
    }
}

// The sine s and the cosine c of the rest, turned by q quarters.
// Stays (no plainer): q is a count of quarters modulo 4, as `quarter` reckons it; an enum of the four would be made of it by one more `match`.
#[tactic(auto, unfolding(crate::specs::SinCos::by_quarter))]
fn by_quarter(q: u64, s: f64, c: f64) -> SinCos
    ensures { result ≡ by_quarter q s c }
{
    match q {
        0 => SinCos { sin: s, cos: c },
        1 => SinCos { sin: c, cos: -s },
        2 => SinCos { sin: -s, cos: -c },
        _ => SinCos { sin: -c, cos: s },
    }
}

// The angle is within 1,024 of 0, so that k is small and the rest has not lost its digits; the contract holds of any a.
#[tactic(auto, unfolding(crate::specs::SinCos::in_reach))]
fn in_reach(a: f64) -> SinCos
    ensures { result ≡ in_reach a }
{
    let k = quarter_turns(a);
    let x = rest(a, k);
    by_quarter(quarter(k), sine_of(x), cosine_of(x))
}

// Sine and cosine of the angle a, in radians. Both are NaN where a is not finite or beyond 1,024 either way.
#[tactic(auto, unfolding(crate::specs::SinCos::sin_cos))]
pub fn sin_cos(a: f64) -> SinCos
    ensures { result ≡ sin_cos a }
{
    if abs(a) <= REACH {
        in_reach(a)
    } else {
        SinCos {
            sin: 0.0 / 0.0,
            cos: 0.0 / 0.0,
        }
    }
}

// The sine alone.
#[tactic(auto, unfolding(crate::specs::SinCos::sin))]
pub fn sin(a: f64) -> f64
    ensures { result ≡ sin a }
{
    let SinCos { sin, .. } = sin_cos(a);
    sin
}

// The cosine alone.
// Stays (no plainer): sine and cosine are two functions of the Rust, each one call and one of its fields.
#[tactic(auto, unfolding(crate::specs::SinCos::cos))]
pub fn cos(a: f64) -> f64
    ensures { result ≡ cos a }
{
    let SinCos { cos, .. } = sin_cos(a);
    cos
}

// The cosine of an `f32`: widened, and the answer narrowed.
#[tactic(auto, unfolding(crate::specs::SinCos::cos32))]
pub fn cos_f32(a: f32) -> f32
    ensures { result ≡ cos32 a }
{
    narrow(cos(widen(a)))
}
