// How the run begins, and what follows it: the closing clips, the report, and the matches in the result list.
ghost use Rattle.std.specs.Prelude.{◌≡◌, ◌*◌, ◌%◌, ◌≤◌, length};
ghost use Rattle.lists.specs.Fronted.{fronted};
ghost use Rattle.wcs_refine.specs.Keeping.{state_of, Same};
ghost use Rattle.wcs_refine.specs.Ending.{Begun, closing_of, Answered};

use crate::WcsRefineResult;
use crate::cleaning::{Cleaned, clean};
use crate::reporting::{Numbers, report};
use crate::rounds::Counts;
use crate::working::Working;
use entry::start_pose;
use query::Held;
use refusal::Refusal;

// What stands after the front stays.
// Stays (C interface): place by place, since the library's copy of a slice calls `memmove`, and the static library is linked with no such function.
fn lay_over(new: &[usize], l: &mut [usize])
    requires { length new.now ≤ length l.old }
    ensures { l.new ≡ fronted new.now l.old }
{
    for i in 0..new.len() {
        l[i] = new[i];
    }
}

// The start pose and the starting matches; no query is cached yet.
pub(crate) fn begin(
    matches: &[usize],
    rotation: [[f32; 3]; 3],
    scale: f64,
    numbers: &mut [usize],
) -> Held
    requires { (length matches.now ≤ length numbers.old) × (length matches.now % 2 ≡ 0) }
    ensures { Begun matches.now rotation scale numbers.new result }
{
    lay_over(matches, numbers);
    Held {
        pose: start_pose(rotation, scale),
        used: matches.len() / 2,
        filled: false,
        boresight: [0.0, 0.0, 0.0],
        theta: 0.0,
        cached: 0,
    }
}

// Stays (no plainer): the counts and the numbers are public fields of the answer itself, and filled in here alone.
// From the state that the loop ended in. The first places of the floats take the residuals.
pub(crate) fn finish(
    w: &mut Working<'_>,
    counts: Counts,
    result_list: &mut [usize],
) -> Result<WcsRefineResult, Refusal>
    requires { 2 * w.old.held.used ≤ length result_list.old }
    ensures { Same w.old w.new
        × Answered (closing_of w.old.course (state_of w.old) counts) result_list.old result_list.new result }
{
    let course = w.course;
    let held = w.held;
    let numbers = &mut *w.numbers;
    let Cleaned { pose, used } = clean(&course, held.pose, held.used, numbers, w.floats)?;
    let to = 2 * used;
    let Numbers { rms, cd, cov } = report(&course, pose, &numbers[0..to], w.floats);
    lay_over(&numbers[0..to], result_list);
    let Counts {
        rounds,
        passes,
        queries,
        comparisons,
    } = counts;
    Ok(WcsRefineResult {
        matches: used,
        rounds,
        passes,
        queries,
        comparisons,
        pose,
        cd,
        rmse_rad: rms,
        cov,
    })
}
