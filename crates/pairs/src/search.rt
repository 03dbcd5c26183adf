// What a search for pairs is asked, and how the spots stand for it.
ghost use Rattle.std.specs.Prelude.{◌≡◌, ◌*◌, ◌≤◌, length};
ghost use Rattle.pairs.specs.Pairs.{spots_within};

use crate::strips::Strips;

// It is asked for the pairs of the first `np` spots with the predictions that are no farther apart than the radius. Points are flat, x then y.
#[derive(Clone, Copy)]
pub struct Search<'a> {
    pub points: &'a [f64],
    pub np: usize,
    pub predicted: &'a [f64],
    pub radius_sq: f64,
    ghost fits: { 2 * np ≤ length points.now },
}

impl<'a> Search<'a> {
    // The spots that are looked at are the first `max_points` of them.
    pub fn new(points: &'a [f64], max_points: usize, predicted: &'a [f64], radius_sq: f64) -> Self
        ensures { (result.points.now ≡ points.now)
            × (result.np ≡ spots_within points.now max_points)
            × (result.predicted.now ≡ predicted.now)
            × (result.radius_sq ≡ radius_sq) }
    {
        Search {
            points,
            np: (points.len() / 2).min(max_points),
            predicted,
            radius_sq,
        }
    }
}

// The spots stand in strips, in `work`, which has two places for each of them.
// Stays (fixed memory): a strip is threaded through places of the lent list, each with the next spot's number; no list is lent for each strip.
#[derive(Clone, Copy)]
pub(crate) struct Threads<'a> {
    pub asked: Search<'a>,
    pub strips: Strips,
    pub work: &'a [usize],
    ghost room: { 2 * asked.np ≤ length work.now },
}
