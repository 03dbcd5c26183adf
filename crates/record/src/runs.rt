// Runs of numbers: gone over without a write, and written to a list.
ghost use Rattle.std.specs.Prelude.{◌≡◌, List, ℕ, ◌+◌, ◌^◌, length, map};
ghost use Rattle.record.specs.Reading.{run};
ghost use Rattle.record.specs.Passes.{Greatest, Over, Standing};

use crate::numbers::{known, number_to};
use crate::reports::Field;
use refusal::Refusal;

// The bytes after so many numbers, none more than `top`. Each takes a byte or more, so the bytes end the loop early where they are too few.
// Not inlined, so that the loop has the processor's registers to itself: there are three calls.
#[inline(never)]
pub(crate) fn skip(bytes: &[u8], count: usize, top: u64) -> Result<&[u8], Refusal>
    requires { Greatest top }
    ensures { (bits : ℕ) → top + 1 ≡ 2 ^ bits
        → Over (run count bits bytes.now) result }
{
    let mut at: usize = 0;
    for _ in 0..count {
        let n = number_to(&bytes[at..], top)?;
        at += n.bytes;
    }
    Ok(&bytes[at..])
}

// A list takes as many numbers as it has places, from bytes that are known to begin with so many.
pub(crate) fn fill<F: Field>(bytes: &[u8], list: &mut [F])
    requires { (vs : List ℕ) × Standing (length list.old) F.bits bytes.now vs }
    ensures { (vs : List ℕ) → Standing (length list.old) F.bits bytes.now vs
        → list.new ≡ map F.of_number vs }
{
    let mut rest = bytes;
    for x in list.iter_mut() {
        let n = known(rest);
        *x = F::from_number(n.value);
        rest = &rest[n.bytes..];
    }
}
