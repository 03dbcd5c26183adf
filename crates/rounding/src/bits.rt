// Floats from and to their bit patterns, at every pattern and every float: every NaN pattern reads as the one NaN, and it is written with its sign
// clear and the first digit set.
ghost use Rattle.std.specs.Prelude.{◌≡◌, from_bits, to_bits};

use crate::format::Binary;

pub fn from_bits<F: Binary>(b: F::Bits) -> F
    ensures { F.value result ≡ from_bits F.format (F.number b) }
{
    F::of_bits(b)
}

pub fn to_bits<F: Binary>(x: F) -> F::Bits
    ensures { F.number result ≡ to_bits F.format (F.value x) }
{
    x.bits()
}

// One bit pattern for the NaN, where floats are handed out. 01: "Made here, a NaN has the bits 7FF8000000000000 (f32: 7FC00000)". The logic has
// one NaN, so to the contract nothing changes: what changes is the pattern that a caller in another language sees.
pub fn canonical<F: Binary>(x: F) -> F
    ensures { F.value result ≡ F.value x }
{
    if x.is_nan() {
        return F::not_a_number();
    }
    x
}
