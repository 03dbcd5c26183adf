// The rounds: each fits, clips and searches.
ghost use Rattle.std.specs.Prelude.{◌≡◌, ◌*◌, ◌/◌, ◌%◌, ◌≤◌, length};
ghost use Rattle.entry.specs.Entry.{fixed_of};
ghost use Rattle.fit.specs.Rows.{rows};
ghost use Rattle.passes.specs.Fit.{fit_passes, passes_of};
ghost use Rattle.wcs_refine.specs.Round.{most_passes};
ghost use Rattle.wcs_refine.specs.Associate.{adaptive_px};
ghost use Rattle.wcs_refine.specs.Keeping.{held_matches, state_of, Same, SearchedTo, RoundTo, RanTo};
ghost use Rattle.wcs_refine.specs.Stepping.{TrimmedTo, rest_of, round_of, loop_of};

use crate::clipping::{clip_round, compute_stats};
use crate::course::Course;
use crate::searching::{Sought, search};
use crate::working::Working;
use entry::Settings;
use fit::Pose;
use passes::{Passed, fit_passes};
use refusal::Refusal;
use rounding::{max, min};
use stats::MedianSigma;

// The matcher's radius is so many standard deviations, but at least that many pixels.
const RADIUS_SIGMAS: f64 = 5.0;

const LEAST_RADIUS_PX: f64 = 2.5;

// What a clip leaves: how many matches, and the matcher's radius.
#[derive(Drop)]
struct Trimmed {
    pub used: usize,
    pub radius: f64,
}

// What a round found, and how many fit passes it made.
#[derive(Drop)]
pub(crate) struct Rounded {
    pub found: Sought,
    pub passes: usize,
}

// So many rounds, fit passes and queries, and the most comparisons of a round.
#[derive(Clone, Copy, Default)]
pub(crate) struct Counts {
    pub rounds: usize,
    pub passes: usize,
    pub queries: usize,
    pub comparisons: usize,
}

// The matcher's radius; the call's own where there are no statistics.
fn adaptive_px(k: Settings, s: Option<MedianSigma>) -> f64
    ensures { result ≡ adaptive_px (fixed_of k) s }
{
    let most = k.radius_px();
    let Some(m) = s else {
        return most;
    };
    let wide = RADIUS_SIGMAS * m.sigma / k.scale;
    min(max(wide, LEAST_RADIUS_PX), most)
}

// Phases B and C: the residuals and their statistics, and the clip. The matches that are left stand at the front of their list.
fn trim(course: &Course<'_>, pose: Pose, matches: &mut [usize], floats: &mut [f64]) -> Trimmed
    requires { (length matches.old % 2 ≡ 0) × (2 * (length matches.old / 2) ≤ length floats.old) }
    ensures { TrimmedTo course.now.k course.now.spots.now course.now.directions.now pose matches.old
        matches.new result }
{
    let n = matches.len() / 2;
    let in_front = course.residuals(matches, pose, floats);
    let s = compute_stats(floats, n, in_front);
    let used = clip_round(&floats[0..n], matches, s);
    let radius = adaptive_px(course.k, s);
    Trimmed { used, radius }
}

// Phases B to D, at the pose that the passes left.
fn renew(w: &mut Working<'_>) -> Result<Sought, Refusal>
    ensures { Same w.old w.new
        × SearchedTo (state_of w.new) (rest_of w.old.course (state_of w.old)) result }
{
    let course = w.course;
    let pose = w.held.pose;
    let to = 2 * w.held.used;
    let t = trim(&course, pose, &mut w.numbers[0..to], w.floats);
    w.held.used = t.used;
    search(w, t.radius)
}

// Phase A: the passes of the fit, on the matches of the state.
fn fit_held(w: &Working<'_>) -> Passed
    ensures { passes_of result
        ≡ fit_passes most_passes w.now.course.k.cut
        (rows w.now.course.spots.now w.now.course.directions.now (held_matches w.now.held w.now.numbers.now))
        w.now.held.pose }
{
    let to = 2 * w.held.used;
    fit_passes(
        &w.numbers[0..to],
        w.course.directions,
        w.course.spots,
        w.held.pose,
        w.course.k.cut,
    )
}

// One round on any state.
fn one_round(w: &mut Working<'_>) -> Result<Rounded, Refusal>
    ensures { Same w.old w.new
        × RoundTo (state_of w.new) (round_of w.old.course (state_of w.old)) result }
{
    let f = fit_held(w);
    w.held.pose = f.end?;
    let found = renew(w)?;
    Ok(Rounded {
        found,
        passes: f.passes,
    })
}

// At most so many rounds, until one converges or is refused.
// Stays (no plainer): the rounds are counted in `Counts` with the rest, so that each way out answers the one value.
pub(crate) fn run(w: &mut Working<'_>, rounds: usize) -> Result<Counts, Refusal>
    requires { rounds ≤ 64 }
    ensures { Same w.old w.new
        × RanTo (state_of w.new) (loop_of w.old.course rounds (state_of w.old)) result }
{
    let mut counts = Counts::default();
    for _turn in 0..rounds {
        let Rounded { found, passes } = one_round(w)?;
        counts = Counts {
            rounds: counts.rounds + 1,
            passes: counts.passes + passes,
            queries: counts.queries + found.queries,
            comparisons: counts.comparisons.max(found.step.comparisons),
        };
        if found.step.converged {
            return Ok(counts);
        }
    }
    Ok(counts)
}
