// The predictions: where the listed directions fall on the panel.
ghost use Rattle.std.specs.Prelude.{◌+◌, ◌*◌, ◌≤◌, ◌⊎◌, length};
ghost use Rattle.query.specs.Listing.{falls};
ghost use Rattle.wcs_refine.specs.Listing.{Told};

use query::Projection;

// Of the n directions listed from place `from` on, those that reach the panel, written from place `to` on, apart from them; their points
// at the front of `xy`, x then y.
// Stays (fixed memory): it answers how many stand at the front of the lent list.
pub(crate) fn predict_into(
    projection: &Projection<'_>,
    numbers: &mut [usize],
    from: usize,
    n: usize,
    to: usize,
    xy: &mut [f64],
) -> usize
    requires { ((from + n ≤ to) ⊎ (to + n ≤ from)) × (from + n ≤ length numbers.old)
        × (to + n ≤ length numbers.old) × (2 * n ≤ length xy.old) }
    ensures { Told (falls projection.now) from n to numbers.old numbers.new xy.old xy.new result }
{
    let mut k = 0;
    for i in 0..n {
        let j = numbers[from + i];
        let f = projection.fall_at(j);
        if f.inside {
            numbers[to + k] = j;
            xy[2 * k] = f.x;
            xy[2 * k + 1] = f.y;
            k += 1;
        }
    }
    k
}
