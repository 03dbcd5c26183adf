// The lent lists as a call leaves them: set to zero, whole.
ghost use Rattle.std.specs.Prelude.{◌≡◌, length, replicate};
ghost use Rattle.rounding.specs.Arith.{zero64};

use lists::clear;

// The working lists and the candidate lists of a call, to their ends.
// Stays (form of 01): the lists of a call are lent flat, each by itself.
pub fn clear_all(
    numbers: &mut [usize],
    floats: &mut [f64],
    distances: &mut [f64],
    indices: &mut [usize],
)
    ensures { (numbers.new ≡ replicate (length numbers.old) 0)
        × (floats.new ≡ replicate (length floats.old) zero64)
        × (distances.new ≡ replicate (length distances.old) zero64)
        × (indices.new ≡ replicate (length indices.old) 0) }
{
    let n = numbers.len();
    let f = floats.len();
    let d = distances.len();
    let i = indices.len();
    clear(numbers, n);
    clear(floats, f);
    clear(distances, d);
    clear(indices, i);
}
