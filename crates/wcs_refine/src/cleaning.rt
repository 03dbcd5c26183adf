// The closing clips: at most three, each with one refit.
ghost use Rattle.std.specs.Prelude.{◌≡◌, ◌*◌, ◌/◌, ◌≤◌, length, IfErr};
ghost use Rattle.refusal.specs.declared.Refusal.TheVariants.{Unsound as OutOfBounds};
ghost use Rattle.fit.specs.Normal.{ls_fit_once};
ghost use Rattle.fit.specs.Rows.{rows, view_of};
ghost use Rattle.residuals.specs.Residual.{clipped};
ghost use Rattle.fit.specs.declared.Pose.{Pose};
ghost use Rattle.wcs_refine.specs.Closing.{Closed, refitted};
ghost use Rattle.wcs_refine.specs.Cleaning.{closing_clip, follows, CleanedTo};

use crate::clipping::compute_stats;
use crate::course::Course;
use fit::{Pose, ls_fit_once};
use passes::{is_sound, moved};
use refusal::Refusal;
use residuals::mad_clip_matches;
use solve::Solution;

const MOST_CLIPS: usize = 3;

// The fewest matches that are clipped.
const FEWEST_MATCHES: usize = 6;

// The pose after the closing clips, and how many matches are left.
#[derive(Clone, Copy)]
pub(crate) struct Cleaned {
    pub pose: Pose,
    pub used: usize,
}

// One least-squares pass on the cleaned set: the pose after it, unless that leaves its bounds.
fn refit(course: &Course<'_>, pose: Pose, matches: &[usize]) -> Result<Pose, Refusal>
    ensures { IfErr result (λ r. r ≡ OutOfBounds) × ((after : Pose → Closed) → follows result after
        ≡ refitted pose
        (ls_fit_once (view_of pose course.now.k.cut)
        (rows course.now.spots.now course.now.directions.now matches.now))
        after) }
{
    let s = ls_fit_once(matches, course.directions, course.spots, pose, course.k.cut);
    let Solution::Solved(d_theta, d_xi, d_eta) = s else {
        return Ok(pose);
    };
    let q = moved(pose, d_theta, d_xi, d_eta);
    if is_sound(q) {
        Ok(q)
    } else {
        Err(Refusal::Unsound)
    }
}

// One clip: how many matches it leaves, if it has an effect. The first places of floats take the residuals, and those after them are scratch.
fn clip_once(
    course: &Course<'_>,
    pose: Pose,
    matches: &mut [usize],
    floats: &mut [f64],
) -> Option<usize>
    requires { 2 * (length matches.old / 2) ≤ length floats.old }
    ensures { clipped result matches.new ≡ closing_clip course.now.k.cut course.now.spots.now
        course.now.directions.now pose matches.old }
{
    let n = matches.len() / 2;
    if n < FEWEST_MATCHES {
        return None;
    }
    let in_front = course.residuals(matches, pose, floats);
    let s = compute_stats(floats, n, in_front)?;
    mad_clip_matches(&floats[0..n], matches, s.median, s.sigma)
}

// The closing clips, unless the pose leaves its bounds. The matches are the first 2 * used numbers of their list, before as after.
// Stays (unproved): lent a whole `Working` in place of its parts, what stood in its numbers after a part of them was lent to `refit` did not follow; so
// this, what it calls, `trim` and `report` take course, pose, matches and floats by themselves.
pub(crate) fn clean(
    course: &Course<'_>,
    pose: Pose,
    used: usize,
    matches: &mut [usize],
    floats: &mut [f64],
) -> Result<Cleaned, Refusal>
    requires { (2 * used ≤ length matches.old) × (2 * used ≤ length floats.old) }
    ensures { CleanedTo course.now.k.cut course.now.spots.now course.now.directions.now pose used
        matches.old matches.new result }
{
    let mut p = pose;
    let mut n = used;
    for _turn in 0..MOST_CLIPS {
        let to = 2 * n;
        let Some(k) = clip_once(course, p, &mut matches[0..to], floats) else {
            return Ok(Cleaned { pose: p, used: n });
        };
        n = k;
        p = refit(course, p, &matches[0..2 * k])?;
    }
    Ok(Cleaned { pose: p, used: n })
}
