// The matches that lie too far off are dropped.
ghost use Rattle.std.specs.Prelude.{◌≡◌, ◌++◌, ◌/◌, length, drop, count_by, get_or};
ghost use Rattle.std.specs.Float.{nan};
ghost use Rattle.std.specs.List.{range_with_len};
ghost use Rattle.residuals.specs.Residual.{keeps, kept_from, clipped, mad_clip_matches};

use crate::NO_RESIDUAL;
use lists::at;

// A residual up to so many standard deviations above the median is kept.
const CLIP_NSIGMA: f64 = 3.0;

// The fewest matches that a clip may leave.
const FEWEST: usize = 4;

// A match behind the plane has no residual, and is not kept.
#[tactic(auto, unfolding(crate::specs::Residual::keeps))]
fn keeps(threshold: f64, x: f64) -> bool
    ensures { result ≡ keeps threshold x }
{
    x != NO_RESIDUAL && x <= threshold
}

// Whether the match i is kept. Past the end of the residuals it has none.
fn kept_at(residuals: &[f64], i: usize, threshold: f64) -> bool
    ensures { result ≡ keeps threshold (get_or residuals.now i nan) }
{
    keeps(threshold, at(residuals, i, f64::NAN))
}

// How many of the first n matches are kept: those past the end of the residuals are not.
fn count_kept(residuals: &[f64], n: usize, threshold: f64) -> usize
    ensures { result ≡ count_by (λ i. keeps threshold (get_or residuals.now i nan)) (range_with_len 0 n) }
{
    (0..n).filter(|&i| kept_at(residuals, i, threshold)).count()
}

// Those that are kept move to the front, and what stands after them stays.
fn compact(residuals: &[f64], matches: &mut [usize], threshold: f64)
    ensures { matches.new ≡
        kept_from threshold residuals.now matches.old 0 (length matches.old / 2)
        ++ drop (length
        (kept_from threshold residuals.now matches.old 0 (length matches.old / 2)))
        matches.old }
{
    let mut k = 0;
    for i in 0..matches.len() / 2 {
        if kept_at(residuals, i, threshold) {
            let spot = matches[2 * i];
            let direction = matches[2 * i + 1];
            matches[k] = spot;
            matches[k + 1] = direction;
            k += 2;
        }
    }
}

// The matches whose residuals are at most median + 3 sigma are kept, if that drops some of them and leaves enough: so many. Else all stay.
pub fn mad_clip_matches(
    residuals: &[f64],
    matches: &mut [usize],
    median: f64,
    sigma: f64,
) -> Option<usize>
    ensures { clipped result matches.new
        ≡ mad_clip_matches residuals.now matches.old median sigma }
{
    let n = matches.len() / 2;
    let threshold = median + CLIP_NSIGMA * sigma;
    let k = count_kept(residuals, n, threshold);
    if k < n && FEWEST <= k {
        compact(residuals, matches, threshold);
        return Some(k);
    }
    None
}
