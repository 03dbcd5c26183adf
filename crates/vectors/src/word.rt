// The numbers of a line as what functions take: floats stand by their bits.
ghost use Rattle.std.specs.Prelude.{◌≤◌};

use std::array;

pub(crate) trait Word: Copy {
    fn of(n: usize) -> Self;
}

impl Word for usize {
    fn of(n: usize) -> usize {
        n
    }
}

// Stays (no plainer): an impl for each width, since a pattern is cut to 32 bits for one of them; the trait of both formats is not handed out by `rounding`.
impl Word for f64 {
    fn of(n: usize) -> f64 {
        rounding::from_bits(n as u64)
    }
}

impl Word for f32 {
    fn of(n: usize) -> f32 {
        rounding::from_bits((n % 0x1_0000_0000) as u32)
    }
}

// What stands at a place; a 0 stands at each place behind the end.
pub(crate) fn at<T: Word>(a: &[usize], i: usize) -> T {
    T::of(a.get(i).copied().unwrap_or(0))
}

// As many as a function takes, from a place on.
pub(crate) fn list<T: Word, const N: usize>(a: &[usize], from: usize) -> [T; N] {
    array::from_fn(|i| at(a, from.wrapping_add(i)))
}

// A count. A list of a line has at most 32 elements, so that there is room for it and places after it can be counted.
pub(crate) fn count_at(a: &[usize], i: usize) -> usize
    ensures { result ≤ 32 }
{
    at::<usize>(a, i).min(32)
}
