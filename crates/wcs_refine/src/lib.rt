// The refinement call. Its meaning stands in specs/Call.antt, the theorem about two calls in specs/Unseen.antt.
#![tactic(auto)]

ghost use Rattle.std.specs.Prelude.{◌*◌, ◌≤◌, length};
ghost use Rattle.panel.specs.Points.{within_limit};
ghost use Rattle.wcs_refine.specs.Keeping.{state_of, Same};
ghost use Rattle.wcs_refine.specs.Ending.{answer_of, Answered};
ghost use Rattle.wcs_refine.specs.Returned.{lists, called, Answers};

use course::Course;
use entry::{Matcher, clear_all, refusal_of, settings_of};
use fit::Pose;
use panel::SPOT_NUMBERS;
use refusal::Refusal;
use working::Working;

mod clipping; // clipping.rt: the statistics of the residuals, and the clip of a round
mod predict; // predict.rt: the predictions of the listed directions
mod rename; // rename.rt: the matches by their directions
mod cleaning; // cleaning.rt: the closing clips, each with a refit
mod reporting; // reporting.rt: the numbers that an accepted call reports
mod course; // course.rt: what a run reads and never changes
mod working; // working.rt: what a run works on
mod looking; // looking.rt: the cone query, unless the cached one serves, and the predictions
mod choosing; // choosing.rt: the matcher that was chosen
mod associating; // associating.rt: that matcher on the predictions
mod comparing; // comparing.rt: whether new matches are the present ones
mod searching; // searching.rt: a round's search
mod rounds; // rounds.rt: one round, and the loop
mod finishing; // finishing.rt: how the run begins, and the closing that follows it

// What an accepted call answers. Beside the pose: how many matches stand in the result list, the rounds, fit passes and queries of the run, the
// most comparisons by which a round put its pairs in order, the matrix and the covariance by rows, and the error.
#[derive(Clone, Copy, Default)]
pub struct WcsRefineResult {
    pub matches: usize,
    pub rounds: usize,
    pub passes: usize,
    pub queries: usize,
    pub comparisons: usize,
    pub pose: Pose,
    pub cd: [[f64; 2]; 2],
    pub rmse_rad: f64,
    pub cov: [[f64; 3]; 3],
}

// The run and the closing of a call that passes the checks.
fn refined(
    w: &mut Working<'_>,
    rounds: usize,
    result_list: &mut [usize],
) -> Result<WcsRefineResult, Refusal>
    requires { (rounds ≤ 64) × (2 * w.old.held.used ≤ length result_list.old)
        × (2 * within_limit w.old.course.spots.now w.old.course.k.limit ≤ length result_list.old) }
    ensures { Same w.old w.new
        × Answered (answer_of w.old.course rounds (state_of w.old)) result_list.old result_list.new result }
{
    let counts = rounds::run(w, rounds)?;
    finishing::finish(w, counts, result_list)
}

// Refines the pose of a rotation from spots (flat, x, y and weight), directions (flat, three components) and starting matches (flat, spot then
// direction). A spot pulls on the pose by its weight; it is matched, clipped and measured without it. A direction whose denominator is at most `cut`
// is dropped, everywhere in the run. `matcher` is which of the two matchers the rounds use: the same matches come of either, but the scanning one lists no
// candidate pairs, so that it needs no room for them and is never refused for want of it. `numbers` and `floats` are working lists, `distances` and
// `indices` room for candidate pairs, which may be empty for the scanning matcher; the matches go to `result_list`.
// Stays (form of 01): the lists and numbers of a call come flat, each by itself.
#[tactic(auto, unfolding(entry::specs::Check::refusal, entry::specs::Fixed::fixed, crate::specs::Call::start, entry::specs::Fixed::start_pose))]
pub fn wcs_refine(
    spots: &[f64],
    matches: &[usize],
    directions: &[f32],
    rotation: [[f32; 3]; 3],
    scale: f64,
    mirror: bool,
    radius: f32,
    cut: f64,
    limit: usize,
    rounds: usize,
    matcher: Matcher,
    numbers: &mut [usize],
    floats: &mut [f64],
    distances: &mut [f64],
    indices: &mut [usize],
    result_list: &mut [usize],
) -> Result<WcsRefineResult, Refusal>
    ensures { Answers
        (called spots.now matches.now directions.now rotation scale mirror radius
        cut limit rounds matcher
        (lists numbers.old floats.old distances.old indices.old
        result_list.old))
        result
        (lists numbers.new floats.new distances.new indices.new
        result_list.new) }
{
    refusal_of(
        spots,
        matches,
        directions,
        rotation,
        scale,
        radius,
        cut,
        limit,
        rounds,
        numbers.len(),
        floats.len(),
        result_list.len(),
    )?;
    let room = spots.len() / SPOT_NUMBERS + matches.len() / 2 + directions.len() / 3;
    let k = settings_of(
        spots,
        directions.len(),
        scale,
        mirror,
        radius,
        cut,
        limit,
        matcher,
        distances.len(),
        indices.len(),
    );
    let course = Course {
        spots,
        directions,
        k,
        room,
    };
    let held = finishing::begin(matches, rotation, scale, numbers);
    let mut w = Working::new(course, held, numbers, floats, distances, indices);
    let r = refined(&mut w, rounds, result_list);
    clear_all(numbers, floats, distances, indices);
    r
}
