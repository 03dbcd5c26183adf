// The refinement call for C and Rust. A list passes as a pointer and a length; the answer's values go to two lists.
ghost use Rattle.std.specs.Prelude.{◌≡◌};
ghost use Rattle.refusal.specs.Number.{number_given};
ghost use Rattle.wcs_refine.specs.Returned.{lists, called, numbered, handed};
ghost use Rattle.exports.specs.Refined.{rows_of, matcher_of, counts, values, set_from, RefinedTo};

use crate::places::put_all;
use entry::Matcher;
use panel::three_at;
use refusal::{Refusal, number_given};
use wcs_refine::WcsRefineResult;

// The rotation by rows; a place that the list lacks is no number, and refused as such.
#[tactic(auto, unfolding(panel::specs::Threes::three_at))]
fn rotation_of(entries: &[f32]) -> [[f32; 3]; 3]
    ensures { result ≡ rows_of entries.now }
{
    let x = three_at(entries, 0, f32::NAN);
    let y = three_at(entries, 1, f32::NAN);
    let z = three_at(entries, 2, f32::NAN);
    [x, y, z]
}

// The matcher that a truth value chooses.
#[tactic(auto, unfolding(crate::specs::Refined::matcher_of))]
fn matcher_of(scanning: bool) -> Matcher
    ensures { result ≡ matcher_of scanning }
{
    if scanning {
        Matcher::Scanning
    } else {
        Matcher::Listing
    }
}

// Beside the number of a refusal "pose and counts are zero".
#[tactic(auto, unfolding(wcs_refine::specs::Returned::handed))]
fn beside_the_number(answer: Result<WcsRefineResult, Refusal>) -> WcsRefineResult
    ensures { numbered (number_given answer) result ≡ handed answer }
{
    answer.unwrap_or_default()
}

// Matches, rounds, passes, queries, and the most comparisons of a round.
fn put_counts(l: &mut [usize], r: &WcsRefineResult)
    ensures { l.new ≡ set_from 0 (counts (numbered 0 r.now)) l.old }
{
    put_all(
        l,
        &[r.matches, r.rounds, r.passes, r.queries, r.comparisons],
    );
}

// The pose, the matrix, the error and the covariance.
fn put_values(l: &mut [f64], r: &WcsRefineResult)
    ensures { l.new ≡ set_from 0 (values (numbered 0 r.now)) l.old }
{
    let p = r.pose;
    let [[a, b], [c, d]] = r.cd;
    let [[e, f, g], [h, i, j], [k, m, n]] = r.cov;
    put_all(
        l,
        &[
            p.theta, p.ra, p.dec, p.scale, a, b, c, d, r.rmse_rad, e, f, g, h, i, j, k, m, n,
        ],
    );
}

// The number of the refusal, or 0. `spots` has x, y and weight of each, `rotation` nine entries, by rows; `scanning` chooses the matcher. `counts` takes matches, rounds, passes,
// queries and the most comparisons of a round; `values` takes theta, RA, Dec, scale, the matrix, the error and the covariance: 5 and 18 places, or as many
// as the lists have.
// Stays (C interface): a list is a pointer and a length each.
#[unsafe(no_mangle)]
pub extern "C" fn raqembu_wcs_refine(
    spots: &[f64],
    matches: &[usize],
    directions: &[f32],
    rotation: &[f32],
    scale: f64,
    mirror: bool,
    radius: f32,
    cut: f64,
    limit: usize,
    rounds: usize,
    scanning: bool,
    numbers: &mut [usize],
    floats: &mut [f64],
    distances: &mut [f64],
    indices: &mut [usize],
    result_list: &mut [usize],
    counts: &mut [usize],
    values: &mut [f64],
) -> usize
    ensures { RefinedTo
        (called spots.now matches.now directions.now (rows_of rotation.now)
        scale mirror radius cut limit rounds (matcher_of scanning)
        (lists numbers.old floats.old distances.old
        indices.old result_list.old))
        result
        (lists numbers.new floats.new distances.new
        indices.new result_list.new)
        counts.old counts.new values.old values.new }
{
    let answer = wcs_refine::wcs_refine(
        spots,
        matches,
        directions,
        rotation_of(rotation),
        scale,
        mirror,
        radius,
        cut,
        limit,
        rounds,
        matcher_of(scanning),
        numbers,
        floats,
        distances,
        indices,
        result_list,
    );
    let r = beside_the_number(answer);
    put_counts(counts, &r);
    put_values(values, &r);
    number_given(answer)
}
