// What is left, on the tangent plane, between each match's spot and its direction.
ghost use Rattle.std.specs.Prelude.{◌≡◌, ◌++◌, ◌≤◌, Some, length, drop};
ghost use Rattle.fit.specs.Rows.{rows, row_of, view_of};
ghost use Rattle.residuals.specs.Residual.{apart, residual_of, residuals, in_front, Computed, Measured};

use crate::NO_RESIDUAL;
use fit::{Pose, View, direction_at, view_of};
use lists::put;
use panel::{Spot, spot_at};
use project::{Plane, predict_tanplane, tan_project_vec};
use rounding::sqrt;
use stats::{MedianSigma, median_mad_sigma};

// The distance of the plane point of a direction from that of its spot.
#[tactic(auto, unfolding(crate::specs::Residual::apart))]
fn apart(w: &View, c: Spot, p: Plane) -> f64
    ensures { result ≡ apart w.now c (Some p) }
{
    let q = predict_tanplane(c.px, c.py, w.roll);
    let dxi = q.xi - p.xi;
    let deta = q.eta - p.eta;
    sqrt(dxi * dxi + deta * deta)
}

// A match's residual, or the mark.
#[tactic(auto, unfolding(crate::specs::Residual::residual_of, crate::specs::Residual::apart))]
fn residual_of(w: &View, c: Spot, d: [f32; 3]) -> f64
    ensures { result ≡ residual_of w.now (row_of c d) }
{
    match tan_project_vec(d, w.basis, w.cut) {
        Some(p) => apart(w, c, p),
        None => NO_RESIDUAL,
    }
}

// The residuals of all matches, with the view given.
// Stays (form of 01): spots, directions and matches are handed on as `compute_residuals` is lent them: flat lists, each by itself.
#[tactic(auto, unfolding(fit::specs::Rows::rows))]
fn residuals(
    matches: &[usize],
    directions: &[f32],
    spots: &[f64],
    w: &View,
    out: &mut [f64],
) -> usize
    ensures { Computed (residuals w.now (rows spots.now directions.now matches.now)) out.old out.new result }
{
    let mut count = 0;
    for (i, [spot, direction]) in matches.as_chunks::<2>().0.iter().enumerate() {
        let c = spot_at(spots, *spot);
        let d = direction_at(directions, *direction);
        let x = residual_of(w, c, d);
        put(out, i, x);
        count += usize::from(x != NO_RESIDUAL);
    }
    count
}

// The residual of each match, written along the matches, with the mark where a direction lies on or behind the plane. The answer is how many
// lie in front of it.
// Stays (form of 01): spots, directions and matches are lent as flat lists, each by itself, in the Rust's order.
pub fn compute_residuals(
    matches: &[usize],
    directions: &[f32],
    spots: &[f64],
    pose: Pose,
    cut: f64,
    out: &mut [f64],
) -> usize
    ensures { Computed (residuals (view_of pose cut)
        (rows spots.now directions.now matches.now))
        out.old out.new result }
{
    residuals(matches, directions, spots, &view_of(pose, cut), out)
}

// The residuals, without the marks, are copied to the front of another list: so many.
#[tactic(auto, unfolding(crate::specs::Residual::in_front))]
fn gather(residuals: &[f64], scratch: &mut [f64]) -> usize
    requires { length residuals.now ≤ length scratch.old }
    ensures { (result ≡ length (in_front residuals.now))
        × (scratch.new ≡ in_front residuals.now ++ drop result scratch.old) }
{
    let mut k = 0;
    for &x in residuals {
        if x != NO_RESIDUAL {
            scratch[k] = x;
            k += 1;
        }
    }
    k
}

// Median and standard deviation of the first n residuals, of those in front of the plane. n counts as half the list where it is more: the
// places after the residuals are scratch, and those used are left zero.
// Stays (fixed memory): the residuals and the scratch behind them are one lent list, so that their number comes beside it.
pub fn residual_median_sigma(l: &mut [f64], n: usize) -> MedianSigma
    ensures { Measured l.old l.new n result }
{
    let from = n.min(l.len() / 2);
    let (residuals, scratch) = l.split_at_mut(from);
    let count = gather(residuals, scratch);
    median_mad_sigma(&mut scratch[..count])
}
