// Both sides of the bounds that a run meets, refusals 12 and 13. A trial tells the number of its refusal, or 0.
use crate::call::{Call, ahead, each, refused, tell};
use crate::two_calls::same_bits;
use entry::Matcher;
use refusal::{Refusal, number_given};
use rounding::from_bits;
use wcs_refine::WcsRefineResult;

// Three matches, of the spots (0, 0), (0, unit) and (1, y). The first pass turns the camera by about -132,000 / y, and moves it so far that two
// directions are behind it: the second pass fails and is the last, so theta is what the first one left.
fn turned(rt: &HostRuntime, name: &str, unit: f64, y: f64, z: f32) {
    let spots = [0.0, 0.0, 1.0, 0.0, unit, 1.0, 1.0, y, 1.0];
    let directions = [1.0, -0.5, 0.0, 1.0, -0.375, z, 0.0078125, 1.0, 0.0];
    refused(
        rt,
        name,
        Call {
            spots: &spots,
            matches: &[0, 0, 1, 1, 2, 2],
            directions: &directions,
            ..ahead()
        },
    );
}

// Between the two sides y differs by its last bit.
pub(crate) fn turns(rt: &HostRuntime) {
    let at: f64 = from_bits(0x4060_1D9A_566E_6B90);
    let past: f64 = from_bits(0x4060_1D9A_566E_6B8F);
    turned(rt, "theta 1024", -1.0, -at, -0.125);
    turned(rt, "theta above 1024", -1.0, -past, -0.125);
    turned(rt, "theta -1024", 1.0, at, 0.125);
    turned(rt, "theta below -1024", 1.0, past, 0.125);
}

// Two spots, both within the radius of both directions: four pairs, with so many places for their distances and their indices. The other lists are as
// short as they may be.
fn four_pairs<'a>(distances: usize, indices: usize, matcher: Matcher) -> Call<'a> {
    Call {
        spots: &[1.0, 0.0, 1.0, -1.0, 0.0, 1.0],
        matches: &[],
        directions: &[1.0, 0.001, 0.0, 1.0, -0.001, 0.0],
        limit: 2,
        matcher,
        numbers: 64,
        floats: 64,
        distances,
        indices,
        result: 4,
        ..ahead()
    }
}

pub(crate) fn candidates(rt: &HostRuntime) {
    let rows = [
        ("candidate lists for exactly four pairs", (8, 16)),
        ("distances one place short for four pairs", (7, 16)),
        ("indices one place short for four pairs", (8, 15)),
        ("no candidate lists for four pairs", (0, 0)),
    ];
    each(rt, &rows, |(distances, indices)| {
        four_pairs(distances, indices, Matcher::Listing)
    });
    let _ = println!(rt; "the same with the matcher that scans");
    each(rt, &rows, |(distances, indices)| {
        four_pairs(distances, indices, Matcher::Scanning)
    });
    agreeing(rt);
    left_zero(rt);
}

// Both matchers with room for all four pairs: how many comparisons each reports, and whether their other counts and their poses are alike.
fn agreeing(rt: &HostRuntime) {
    let listing = four_pairs(8, 16, Matcher::Listing).made();
    let scanning = four_pairs(8, 16, Matcher::Scanning).made();
    let compared = |r: Result<WcsRefineResult, Refusal>| r.map_or(0, |a| a.comparisons);
    tell(rt, "comparisons by listing", compared(listing));
    tell(rt, "comparisons by scanning", compared(scanning));
    let uncounted = |r: Result<WcsRefineResult, Refusal>| {
        r.map(|a| WcsRefineResult {
            comparisons: 0,
            ..a
        })
    };
    let _ = println!(rt;
        "  the other counts and the pose are {}",
        if same_bits(uncounted(listing), uncounted(scanning)) {
            "alike"
        } else {
            "different"
        }
    );
}

// Candidate lists that hold a 7 in every place, one place short for four pairs: which matcher leaves them zero, and how each ends.
fn left_zero(rt: &HostRuntime) {
    for (name, matcher) in [
        ("full candidate lists, listing", Matcher::Listing),
        ("full candidate lists, scanning", Matcher::Scanning),
    ] {
        let mut numbers = [7usize; 144];
        let mut floats = [7.0f64; 144];
        let mut distances = [7.0f64; 7];
        let mut indices = [7usize; 15];
        let mut result = [7usize; 6];
        let r = four_pairs(7, 15, matcher).made_on(
            &mut numbers,
            &mut floats,
            &mut distances,
            &mut indices,
            &mut result,
        );
        tell(rt, name, number_given(r));
        let zero = distances.iter().all(|x| *x == 0.0) && indices.iter().all(|x| *x == 0);
        let _ = println!(rt; "  they are {}", if zero { "zero" } else { "not zero" });
    }
}
