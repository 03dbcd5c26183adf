// Reads, writes and clearings of lent lists that ask nothing of their place, whatever the lists hold.
#![tactic(auto)]

ghost use Rattle.std.specs.Prelude.{◌≡◌, get_or, set};
ghost use Rattle.std.specs.Float.{binary64};
ghost use Rattle.std.specs.Float.Ieee.{of_bits};
ghost use Rattle.lists.specs.Cleared.{cleared};

// What a cleared place of a list is left as.
// Stays (no plainer): `ConstZero` of the crate `num_traits` asks an order, sums and their laws of a type too, and here it is one constant of two types.
pub trait Zero: Copy {
    ghost ZERO: { Self };

    const ZERO: Self;
}

impl Zero for usize {
    ghost ZERO = { 0 };

    const ZERO: usize = 0;
}

impl Zero for f64 {
    ghost ZERO = { of_bits binary64 0 };

    const ZERO: f64 = 0.0;
}

// What stands at a place, and `past` behind the end.
pub fn at<T: Copy>(s: &[T], i: usize, past: T) -> T
    ensures { result ≡ get_or s.now i past }
{
    s.get(i).copied().unwrap_or(past)
}

// An index behind the end reads as 0.
pub fn number_at(s: &[usize], i: usize) -> usize
    ensures { result ≡ get_or s.now i 0 }
{
    at(s, i, 0)
}

// Behind the end nothing is stored.
pub fn put<T: Copy>(s: &mut [T], i: usize, x: T)
    ensures { s.new ≡ set s.old i x }
{
    if i < s.len() {
        s[i] = x;
    }
}

// The first n places are left zero, all of them where there are fewer.
pub fn clear<T: Zero>(s: &mut [T], n: usize)
    ensures { s.new ≡ cleared T.ZERO n s.old }
{
    let most = n.min(s.len());
    for x in s[..most].iter_mut() {
        *x = T::ZERO;
    }
}
