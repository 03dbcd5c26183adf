// The second half of a round's search: the spots' points, the matcher on them and the predictions, and whether its matches are new.
ghost use Rattle.std.specs.Prelude.{◌≡◌, ◌+◌, ◌*◌, ◌/◌, ◌≤◌, ◌++◌, length, drop};
ghost use Rattle.std.proofs.Math.Seq.{slice};
ghost use Rattle.panel.specs.Points.{points_of};
ghost use Rattle.wcs_refine.specs.Keeping.{state_of, Same, PointsAt, points_at, AssociatedTo};
ghost use Rattle.wcs_refine.specs.Comparing.{FoundTo};

use crate::choosing::matched;
use crate::comparing::{Table, same_matches};
use crate::rename::renamed_into;
use crate::working::Working;
use panel::{SPOT_NUMBERS, lay_points};
use refusal::Refusal;

// The fewest matches that take the place of the present ones.
const FEWEST: usize = 4;

// Whether the run has converged, and how often the matcher compared two pairs.
#[derive(Drop)]
pub(crate) struct Step {
    pub converged: bool,
    pub comparisons: usize,
}

// How many spots were looked at, how many matches there are, and how often two pairs were compared.
#[derive(Clone, Copy)]
pub(crate) struct Tally {
    pub within: usize,
    pub count: usize,
    pub comparisons: usize,
}

// The matcher works in regions 4 to 7, which are as long as strips, marks and matches can need; its matches go from there to region 8 by their directions.
// The points of so many spots stand in regions 4 and 5 of the floats. It fails where the matcher lists more pairs than the candidate lists hold.
fn find(w: &mut Working<'_>, spots: usize, r: f64, q: usize) -> Result<Tally, Refusal>
    requires { spots + q ≤ w.old.course.room }
    ensures { Same w.old w.new × (w.new.held ≡ w.old.held)
        × FoundTo w.old.course.k.matcher w.old.course.room q (points_at w.old.course.room spots w.old.floats.now) w.old.course.k.limit r
        w.old.floats.now w.old.distances.now w.old.indices.now w.old.numbers.now w.new.numbers.now result }
{
    let course = w.course;
    let room = course.room;
    let at = 4 * room;
    let past = at + 2 * spots;
    let from = 2 * room;
    let end = from + 2 * q;
    let work = 4 * room;
    let far = 8 * room;
    let within = spots.min(course.k.limit);
    // They are only read, but parts to read of a lent list cannot be lent beside the others.
    let floats = &mut *w.floats;
    let m = matched(
        course.k.matcher,
        &floats[at..past],
        course.k.limit,
        &floats[from..end],
        r * r,
        w.distances,
        w.indices,
        &mut w.numbers[work..far],
    );
    let count = m.matched?;
    let ids = 3 * room;
    let placed = work + 3 * within + q;
    let numbers = &mut w.numbers[..];
    let (read, new) = numbers.split_at_mut(far);
    renamed_into(&read[ids..ids + q], &read[placed..placed + 2 * count], new);
    Ok(Tally {
        within,
        count,
        comparisons: m.comparisons,
    })
}

// The n numbers from place `from` on, also at the front.
// Stays (C interface): place by place, as in `lay_over`.
fn bring_forward(numbers: &mut [usize], from: usize, n: usize)
    requires { (n ≤ from) × (from + n ≤ length numbers.old) }
    ensures { numbers.new ≡ slice from (from + n) numbers.old ++ drop n numbers.old }
{
    for i in 0..n {
        numbers[i] = numbers[from + i];
    }
}

// The first q predictions stand in their regions, and so do the points of so many spots. Matches that differ from the present ones, at least four, take
// their place.
fn associate(w: &mut Working<'_>, spots: usize, r: f64, q: usize) -> Result<Step, Refusal>
    requires { spots + q ≤ w.old.course.room }
    ensures { Same w.old w.new
        × AssociatedTo w.old.course.k w.old.course.room (points_at w.old.course.room spots w.old.floats.now) w.old.held r q
        w.old.numbers.now w.old.floats.now (state_of w.new) result }
{
    let Tally {
        within,
        count,
        comparisons,
    } = find(w, spots, r, q)?;
    let used = w.held.used;
    let new = 8 * w.course.room;
    let at = Table {
        base: 4 * w.course.room,
        n: within,
        start: new,
        t: count,
    };
    if count < FEWEST || same_matches(w.numbers, at, used) {
        return Ok(Step {
            converged: true,
            comparisons,
        });
    }
    bring_forward(w.numbers, new, 2 * count);
    w.held.used = count;
    Ok(Step {
        converged: false,
        comparisons,
    })
}

// The points of so many spots, laid into regions 4 and 5.
fn set_out(spots: &[f64], within: usize, room: usize, floats: &mut [f64])
    requires { (within ≤ room) × (16 * room ≤ length floats.old) }
    ensures { PointsAt spots.now within (4 * room) floats.old floats.new }
{
    let from = 4 * room;
    let end = from + 2 * within;
    lay_points(spots, within, &mut floats[from..end]);
}

// The matcher on the spots themselves: their points are taken out anew in each round, so that a round depends on nothing but the lists it is lent.
pub(crate) fn associate_spots(w: &mut Working<'_>, r: f64, q: usize) -> Result<Step, Refusal>
    requires { q ≤ w.old.course.k.count }
    ensures { Same w.old w.new
        × AssociatedTo w.old.course.k w.old.course.room (points_of w.old.course.spots.now w.old.course.k.limit) w.old.held r q
        w.old.numbers.now w.old.floats.now (state_of w.new) result }
{
    let course = w.course;
    let within = (course.spots.len() / SPOT_NUMBERS).min(course.k.limit);
    set_out(course.spots, within, course.room, w.floats);
    associate(w, within, r, q)
}
