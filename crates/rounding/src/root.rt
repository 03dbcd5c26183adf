// The square root, on patterns.
ghost use Rattle.std.specs.Prelude.{◌≡◌, from_bits, to_bits};
ghost use Rattle.rounding.specs.Root.{root};
ghost use Rattle.rounding.specs.Pattern.{Positive};

use crate::format::Binary;
use crate::pattern::{Parts, nearest, some, take_apart};
use crate::whole_root::{Rooted, Topped};

// The pattern of the root of a value above zero, from the value's pattern.
// The digits are moved to the top of a word and to an even place, so that the whole root has one digit more than the format; that digit,
// and whether anything is left after it, say how to round.
fn root_bits<F: Binary>(b: u64) -> u64
    requires { Positive F.format b F.DIGITS F.LEAST }
    ensures { result ≡ to_bits F.format (root F.format (from_bits F.format b)) }
{
    let h = F::DIGITS;
    let l = F::LEAST;
    let Parts { digits, place } = take_apart(b, h);
    let z = digits.leading_zeros() as u64;
    let e = place + l - z;
    let a = Topped {
        word: (digits << z) >> (e & 1),
    };
    let Rooted { root, rest } = F::whole_root(a);
    let s = some(rest);
    let m = nearest(2 * root + s, 2);
    (((e + 1) / 2 + 31 - h) << h) + m
}

// The square root of x, rounded to the nearest float of its format, a tie to the even one.
// Stays (form of 01): "Both are proved over whole numbers", of the root and the narrowing, which are delivered by themselves; the library's `sqrt` is not called.
pub fn sqrt<F: Binary>(x: F) -> F
    ensures { F.value result ≡ root F.format (F.value x) }
{
    if x.is_nan() {
        return x;
    }
    if x.is_zero() {
        return x; // a zero keeps its sign
    }
    if x.is_below_zero() {
        return F::not_a_number(); // below zero there is no root
    }
    let b = x.pattern();
    if b < F::INFINITE {
        F::read(root_bits::<F>(b))
    } else {
        x
    }
}
