// The passes of the fit: each solves once and moves the pose. Their meaning stands in specs/Fit.antt.
#![tactic(auto)]

ghost use Rattle.std.specs.Prelude.{◌≡◌};
ghost use Rattle.refusal.specs.declared.Refusal.TheVariants.{Unsound as OutOfBounds};
ghost use Rattle.fit.specs.Rows.{rows};
ghost use Rattle.passes.specs.Fit.{moved, sound, still, fit_passes, passes_of};

use fit::{Pose, ls_fit_once};
use project::{Plane, Sky, inverse_tan_project};
use refusal::Refusal;
use rounding::abs;
use solve::Solution;

// Angles beyond this, and those that are not finite, are refused.
const MOST: f64 = 1024.0;

// The fit is still when theta moves less than this, and the boresight's two offsets together less than that.
const STILL_THETA: f64 = 1e-10;

const CONVERGENCE_RAD: f64 = 1e-12;

const MOST_PASSES: usize = 10;

// The passes' pose left its bounds.
#[derive(Clone, Copy)]
pub struct Unsound {
    pub pose: Pose,
}

// A call is refused for it.
impl From<Unsound> for Refusal {
    ghost from_gives = { λ _ r. r ≡ OutOfBounds };

    fn from(_left: Unsound) -> Refusal {
        Refusal::Unsound
    }
}

// How many passes there were, and the pose after them.
#[derive(Clone, Copy)]
pub struct Passed {
    pub passes: usize,
    pub end: Result<Pose, Unsound>,
}

// Theta and the boresight moved by a solution.
// Stays (form of 01): a solution "carries the three corrections as floats", and the fit loop takes it apart.
pub fn moved(p: Pose, d_theta: f64, d_xi: f64, d_eta: f64) -> Pose
    ensures { result ≡ moved p d_theta d_xi d_eta }
{
    let offset = Plane {
        xi: d_xi,
        eta: d_eta,
    };
    let Sky { ra, dec } = inverse_tan_project(offset, p.crval());
    Pose {
        theta: p.theta + d_theta,
        ra,
        dec,
        ..p
    }
}

// A NaN is not at most the bound.
#[tactic(auto, unfolding(crate::specs::Fit::sound))]
pub fn is_sound(p: Pose) -> bool
    ensures { result ≡ sound p }
{
    abs(p.theta) <= MOST && abs(p.ra) <= MOST && abs(p.dec) <= MOST
}

// Stays (form of 01): the three corrections, as `moved` takes them.
#[tactic(auto, unfolding(crate::specs::Fit::still))]
pub fn is_still(d_theta: f64, d_xi: f64, d_eta: f64) -> bool
    ensures { result ≡ still d_theta d_xi d_eta }
{
    abs(d_theta) < STILL_THETA && abs(d_xi) + abs(d_eta) < CONVERGENCE_RAD
}

// At most ten passes over the matches. A failed one is counted and ends them, and so does one after which the fit is still or the pose is
// not sound.
// Stays (form of 01): spots, directions and matches are lent as flat lists, each by itself, in the Rust's order.
pub fn fit_passes(
    matches: &[usize],
    directions: &[f32],
    spots: &[f64],
    pose: Pose,
    cut: f64,
) -> Passed
    ensures { passes_of result ≡ fit_passes 10 cut
        (rows spots.now directions.now matches.now) pose }
{
    let mut p = pose;
    if matches.len() / 2 < 3 {
        return Passed {
            passes: 0,
            end: Ok(p),
        };
    }
    for i in 0..MOST_PASSES {
        let s = ls_fit_once(matches, directions, spots, p, cut);
        let Solution::Solved(d_theta, d_xi, d_eta) = s else {
            return Passed {
                passes: i + 1,
                end: Ok(p),
            };
        };
        let q = moved(p, d_theta, d_xi, d_eta);
        if !is_sound(q) {
            return Passed {
                passes: i + 1,
                end: Err(Unsound { pose: q }),
            };
        }
        if is_still(d_theta, d_xi, d_eta) {
            return Passed {
                passes: i + 1,
                end: Ok(q),
            };
        }
        p = q;
    }
    Passed {
        passes: MOST_PASSES,
        end: Ok(p),
    }
}
