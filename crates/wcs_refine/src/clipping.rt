// The statistics of the residuals, and the clip of a round.
ghost use Rattle.std.specs.Prelude.{◌≡◌, ◌*◌, ◌%◌, ◌≤◌, length, take};
ghost use Rattle.residuals.specs.Residual.{in_front};
ghost use Rattle.wcs_refine.specs.Cleaning.{Statted, ClippedTo};

use residuals::{mad_clip_matches, residual_median_sigma};
use stats::MedianSigma;

// The fewest residuals that have statistics.
const FEWEST_RESIDUALS: usize = 6;

// The statistics of the first n numbers, of those in front of the plane, which are so many, where that is enough; the list has as many places
// again, as scratch.
pub(crate) fn compute_stats(floats: &mut [f64], n: usize, seen: usize) -> Option<MedianSigma>
    requires { (2 * n ≤ length floats.old) × (seen ≡ length (in_front (take n floats.old))) }
    ensures { Statted floats.old floats.new n result }
{
    if seen < FEWEST_RESIDUALS {
        return None;
    }
    Some(residual_median_sigma(floats, n))
}

// The matches that a clip leaves, at the front of their list: so many.
// Stays (form of 01): matches are a flat list, spot then direction; that its length is even is asked here, in `trim`, `begin` and `renamed_into`.
pub(crate) fn clip_round(residuals: &[f64], matches: &mut [usize], s: Option<MedianSigma>) -> usize
    requires { length matches.old % 2 ≡ 0 }
    ensures { ClippedTo residuals.now s matches.old matches.new result }
{
    let n = matches.len() / 2;
    let Some(m) = s else {
        return n;
    };
    mad_clip_matches(residuals, matches, m.median, m.sigma).unwrap_or(n)
}
