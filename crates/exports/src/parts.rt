// Parts of the refinement that other firmware calls by themselves, the median and the two matchers. A list passes as a pointer and a length.
ghost use Rattle.std.specs.Prelude.{◌≡◌, length, replicate};
ghost use Rattle.rounding.specs.Arith.{zero64};
ghost use Rattle.stats.specs.Median.{median_mad_sigma};
ghost use Rattle.matching.specs.Greedy.{greedy_unique_matches};
ghost use Rattle.scanning.specs.Scanning.{greedy_by_scanning};
ghost use Rattle.exports.specs.Parts.{MatchedTo, ScannedTo, two_places};

use crate::places::put_all;
use refusal::number_given;

// Median and sigma go to the first two places of `out`, as far as it has them. The values are left zero.
#[unsafe(no_mangle)]
pub extern "C" fn raqembu_median_mad_sigma(vals: &mut [f64], out: &mut [f64])
    ensures { (vals.new ≡ replicate (length vals.old) zero64)
        × (out.new ≡ two_places out.old (median_mad_sigma vals.old)) }
{
    let s = stats::median_mad_sigma(vals);
    put_all(out, &[s.median, s.sigma]);
}

// 0, or the number of the refusal: 13, more pairs than the candidate lists hold, or 11, too short a `work`. Points and predictions are x and y each:
// matching knows no weight. How many matches stand in `work` after its marks, and how often two pairs were compared to put them in order, goes to
// the first two places of `counts`, as far as it has them.
// Stays (C interface): a list is a pointer and a length each.
#[unsafe(no_mangle)]
pub extern "C" fn raqembu_greedy_unique_matches(
    points: &[f64],
    max_points: usize,
    predicted: &[f64],
    radius_sq: f64,
    distances: &mut [f64],
    indices: &mut [usize],
    work: &mut [usize],
    counts: &mut [usize],
) -> usize
    ensures { MatchedTo
        (greedy_unique_matches points.now max_points predicted.now radius_sq
        distances.old indices.old work.old)
        result distances.new indices.new work.new
        counts.old counts.new }
{
    let m = matching::greedy_unique_matches(
        points, max_points, predicted, radius_sq, distances, indices, work,
    );
    let count = m.matched.unwrap_or(0);
    put_all(counts, &[count, m.comparisons]);
    number_given(m.matched)
}

// The same matches without candidate lists: 0, or 11, too short a `work`. It orders no pairs, so that the second place of `counts` is given 0.
#[unsafe(no_mangle)]
pub extern "C" fn raqembu_greedy_unique_matches_by_scanning(
    points: &[f64],
    max_points: usize,
    predicted: &[f64],
    radius_sq: f64,
    work: &mut [usize],
    counts: &mut [usize],
) -> usize
    ensures { ScannedTo
        (greedy_by_scanning points.now max_points predicted.now radius_sq work.old)
        result work.new counts.old counts.new }
{
    let matched = scanning::greedy_unique_matches_by_scanning(
        points, max_points, predicted, radius_sq, work,
    );
    put_all(counts, &[matched.unwrap_or(0), 0]);
    number_given(matched)
}
