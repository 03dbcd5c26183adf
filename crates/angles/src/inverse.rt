// The inverse functions. The angle is halved three times, by what that does to its tangent, so that the series needs few terms.
ghost use Rattle.std.specs.Prelude.{◌≡◌};
ghost use Rattle.std.specs.List.{fold};
ghost use Rattle.rounding.specs.Arith.{◌⊖◌, ◌⊗◌};
ghost use Rattle.angles.specs.Inverse.{halved, series, atan_small, atan_magnitude, atan, asin, zero_angle, atan2};

use rounding::{abs, is_nan, is_negative, sqrt};

const HALF_PI: f64 = 1.5707963267948966;

const PI: f64 = 3.141592653589793;

// From the tangent of an angle to that of its half.
#[tactic(auto, unfolding(crate::specs::Inverse::halved))]
fn half(t: f64) -> f64
    ensures { result ≡ halved t }
{
    t / (1.0 + sqrt(1.0 + t * t))
}

// A bracket for each part, from the inside out.
fn brackets(w: f64, parts: &[f64], innermost: f64) -> f64
    ensures { result ≡ fold (λ inner p. p ⊖ w ⊗ inner) innermost parts.now }
{
    parts.iter().fold(innermost, |inner, p| *p - w * inner)
}

// Eight times the angle of a small tangent: the three halvings undone.
fn series_of(t: f64) -> f64
    ensures { result ≡ series t }
{
    let parts = [
        1.0 / 13.0,
        1.0 / 11.0,
        1.0 / 9.0,
        1.0 / 7.0,
        1.0 / 5.0,
        1.0 / 3.0,
        1.0,
    ];
    8.0 * (t * brackets(t * t, &parts, 1.0 / 15.0))
}

// The angle of a tangent t from 0 to 1.
#[tactic(auto, unfolding(crate::specs::Inverse::atan_small))]
fn small(t: f64) -> f64
    ensures { result ≡ atan_small t }
{
    series_of(half(half(half(t))))
}

// The angle of a tangent t at or above 0.
#[tactic(auto, unfolding(crate::specs::Inverse::atan_magnitude))]
fn magnitude(t: f64) -> f64
    ensures { result ≡ atan_magnitude t }
{
    if 1.0 < t {
        HALF_PI - small(1.0 / t)
    } else {
        small(t)
    }
}

// The arc tangent, with the sign of x. A NaN stays.
#[tactic(auto, unfolding(crate::specs::Inverse::atan))]
pub fn atan(x: f64) -> f64
    ensures { result ≡ atan x }
{
    let m = magnitude(abs(x));
    if is_negative(x) { -m } else { m }
}

// The arc sine; NaN beyond 1 either way.
#[tactic(auto, unfolding(crate::specs::Inverse::asin))]
pub fn asin(v: f64) -> f64
    ensures { result ≡ asin v }
{
    if 1.0 < abs(v) {
        0.0 / 0.0
    } else {
        atan(v / sqrt((1.0 - v) * (1.0 + v)))
    }
}

// The angle of a direction with y a zero and x not above zero: half a turn where x is below zero or minus zero, with the sign of y. With x plus
// zero there is no direction, and y comes back with its sign.
fn zero_angle(y: f64, x: f64) -> f64
    ensures { result ≡ zero_angle y x }
{
    if is_negative(x) {
        if is_negative(y) {
            return -PI;
        }
        return PI;
    }
    y
}

// The angle of the direction (x, y), from minus to plus half a turn; a zero's sign says on which side of the cut it lies. NaN where either is NaN.
#[tactic(auto, unfolding(crate::specs::Inverse::atan2))]
pub fn atan2(y: f64, x: f64) -> f64
    ensures { result ≡ atan2 y x }
{
    if is_nan(y) || is_nan(x) {
        return 0.0 / 0.0;
    }
    if 0.0 < x {
        return atan(y / x);
    }
    if y == 0.0 {
        return zero_angle(y, x);
    }
    if x < 0.0 {
        if y < 0.0 {
            return atan(y / x) - PI;
        }
        return atan(y / x) + PI;
    }
    if 0.0 < y { HALF_PI } else { -HALF_PI }
}
