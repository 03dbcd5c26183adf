// Thresholds from a few elements, near the place that is sought, so that what is left of a part is small. How near decides the time and not the result.
ghost use Rattle.std.specs.Prelude.{◌+◌, ◌*◌, ◌<◌, ◌≤◌, length};

use rounding::total_key;

// Where in its part the place that is sought lies. The threshold is then chosen on its far side from the nearer end, so that the short side is kept.
#[derive(Clone, Copy, Debug, PartialEq, Eq)]
enum Side {
    Low,
    Middle,
    High,
}

fn middle_of(a: u64, b: u64, c: u64) -> u64 {
    a.min(b).max(a.max(b).min(c))
}

fn side_of(k: usize, n: usize) -> Side {
    let edge = n / 4;
    if k < edge {
        return Side::Low;
    }
    if n - edge <= k {
        return Side::High;
    }
    Side::Middle
}

// Elements of a list, a step apart.
#[derive(Clone, Copy)]
struct Sample<'a> {
    v: &'a [f64],
    step: usize,
    side: Side,
}

impl Sample<'_> {
    // The least, the middle or the greatest key of three elements.
    fn three(&self, at: usize) -> u64
        requires { at + 2 * self.now.step < length self.now.v.now }
    {
        let a = total_key(self.v[at]);
        let b = total_key(self.v[at + self.step]);
        let c = total_key(self.v[at + 2 * self.step]);
        // Stays (no plainer): a closure in place of the side would be chosen among three by this same match.
        match self.side {
            Side::Low => a.min(b).min(c),
            Side::Middle => middle_of(a, b, c),
            Side::High => a.max(b).max(c),
        }
    }

    fn nine(&self, at: usize) -> u64
        requires { at + 8 * self.now.step < length self.now.v.now }
    {
        let a = self.three(at);
        let b = self.three(at + 3 * self.step);
        let c = self.three(at + 6 * self.step);
        middle_of(a, b, c)
    }

    // Stays (no plainer): one function of nine and twenty-seven would take the next smaller one as a closure, which is longer than these four lines.
    fn twenty_seven(&self, at: usize) -> u64
        requires { at + 26 * self.now.step < length self.now.v.now }
    {
        let a = self.nine(at);
        let b = self.nine(at + 9 * self.step);
        let c = self.nine(at + 18 * self.step);
        middle_of(a, b, c)
    }
}

// A key near the one at place k of the order.
// Stays (no plainer): here, in `sampled` and in `select`, k is a place of the list beside it; `select` is lent that list to write, the others to read.
fn near(v: &[f64], k: usize) -> u64
    requires { k < length v.now }
{
    let n = v.len();
    if n < 27 {
        return total_key(v[k]);
    }
    let step = n / 27;
    let side = side_of(k, n);
    Sample { v, step, side }.twenty_seven(step / 2)
}

// A threshold above a and at most z, from a sample.
pub(crate) fn sampled(v: &[f64], k: usize, a: u64, z: u64) -> u64
    requires { (a < z) × (k < length v.now) }
    ensures { (a < result) × (result ≤ z) }
{
    near(v, k).clamp(a + 1, z)
}

// A threshold above a and at most z, half way.
pub(crate) fn half_way(a: u64, z: u64) -> u64
    requires { a < z }
    ensures { (a < result) × (result ≤ z) }
{
    a + (z - a) / 2 + 1
}
