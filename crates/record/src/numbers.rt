// Whole numbers in groups of seven bits.
ghost use Rattle.std.specs.Prelude.{◌≡◌, ℕ, min, ◌+◌, ◌^◌};
ghost use Rattle.record.specs.Number.{number, numbered};
ghost use Rattle.record.specs.Passes.{Greatest, Lies};

use crate::Number;
use refusal::Refusal;

// The greatest numbers of 64 and of 32 bits.
pub(crate) const TOP_64: u64 = 0xFFFF_FFFF_FFFF_FFFF;

pub(crate) const TOP_32: u64 = 0xFFFF_FFFF;

// The greatest number of so many bits, and of 64 where more are asked.
pub(crate) fn greatest(bits: u32) -> u64
    ensures { result + 1 ≡ 2 ^ min bits 64 }
{
    if bits < 64 {
        return (1u64 << bits) - 1;
    }
    TOP_64
}

// The number at the front of the bytes that is no more than `top`, which has all its bits set. What is left of `top` above the groups read so far
// bounds the next byte, whether it is the last (its value) or not (its top bit stands for the least that must follow). Inlined, as `known` is: a call for each number costs time.
#[inline(always)]
pub(crate) fn number_to(bytes: &[u8], top: u64) -> Result<Number, Refusal>
    requires { Greatest top }
    ensures { (bits : ℕ) → top + 1 ≡ 2 ^ bits → result ≡ number bits bytes.now }
{
    let mut v: u64 = 0;
    let mut weight: u64 = 1;
    let mut left = top;
    for (i, &byte) in bytes.iter().enumerate() {
        let b = u64::from(byte);
        if left < b {
            return Err(Refusal::WrongNumber);
        }
        if b < 128 {
            if b == 0 && 0 < i {
                return Err(Refusal::WrongNumber);
            }
            return Ok(Number {
                value: v + b * weight,
                bytes: i + 1,
            });
        }
        v += (b - 128) * weight;
        weight *= 128;
        left /= 128;
    }
    Err(Refusal::EndsEarly)
}

// The number at the front of bytes that are known to begin with one: the second pass, which tests nothing but where the number ends.
// Stays (speed): a `for` over the bytes tests each for being the last, and a record of long floats took 9 % more instructions to read.
#[inline(always)]
pub(crate) fn known(bytes: &[u8]) -> Number
    requires { Lies bytes.now }
    ensures { (bits v n : ℕ) → number bits bytes.now ≡ numbered v n
        → (result.value ≡ v) × (result.bytes ≡ n) }
{
    let mut v: u64 = 0;
    let mut weight: u64 = 1;
    let mut i: usize = 0;
    let mut b = u64::from(bytes[0]);
    while 127 < b {
        v += (b - 128) * weight;
        weight *= 128;
        i += 1;
        b = u64::from(bytes[i]);
    }
    Number {
        value: v + b * weight,
        bytes: i + 1,
    }
}
