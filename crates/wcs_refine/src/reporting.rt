// The numbers that an accepted call reports: error, matrix and covariance.
ghost use Rattle.std.specs.Prelude.{◌≡◌, ◌/◌, ◌≤◌, length, pos, if◌then◌else◌, nat_lt};
ghost use Rattle.std.specs.Float.{binary64};
ghost use Rattle.std.specs.Float.Ieee.{of_int};
ghost use Rattle.rounding.specs.Arith.{◌⊘◌, zero64};
ghost use Rattle.rounding.specs.Root.{root};
ghost use Rattle.fit.specs.Rows.{rows, view_of};
ghost use Rattle.residuals.specs.Residual.{in_front};
ghost use Rattle.fit.specs.Normal.{normal_matrix};
ghost use Rattle.entry.specs.Entry.{fixed_of};
ghost use Rattle.wcs_refine.specs.Closing.{sum_squares, reported};
ghost use Rattle.wcs_refine.specs.Cleaning.{covariance_of, report_of};

use crate::course::Course;
use fit::{Pose, normal_matrix};
use project::cd_from_theta;
use residuals::NO_RESIDUAL;
use rounding::sqrt;
use solve::covariance_from_normal;

// The matrices by rows.
#[derive(Clone, Copy)]
pub(crate) struct Numbers {
    pub rms: f64,
    pub cd: [[f64; 2]; 2],
    pub cov: [[f64; 3]; 3],
}

// The sum of the squares of the residuals in front of the plane, from the left.
fn sum_squares(residuals: &[f64]) -> f64
    ensures { result ≡ sum_squares (in_front residuals.now) zero64 }
{
    let mut s = 0.0;
    for &x in residuals {
        if x != NO_RESIDUAL {
            s = s + x * x;
        }
    }
    s
}

// Of n residuals; 0 where there is none.
fn root_mean(sum: f64, n: usize) -> f64
    ensures { result ≡ (if nat_lt n 1 then zero64 else root binary64 (sum ⊘ of_int binary64 (pos n))) }
{
    if n < 1 {
        return 0.0;
    }
    sqrt(sum / std::num::nearest_u64_to_f64(n as u64))
}

// The covariance of the pose's corrections, from the sum of the squares.
fn covariance(course: &Course<'_>, pose: Pose, matches: &[usize], sum: f64) -> [[f64; 3]; 3]
    ensures { result
        ≡ covariance_of
        (normal_matrix (view_of pose course.now.k.cut)
        (rows course.now.spots.now course.now.directions.now matches.now))
        sum }
{
    let m = normal_matrix(matches, course.directions, course.spots, pose, course.k.cut);
    covariance_from_normal(m.sums.ata, sum, m.n)
}

// The first places of floats take the residuals.
pub(crate) fn report(
    course: &Course<'_>,
    pose: Pose,
    matches: &[usize],
    floats: &mut [f64],
) -> Numbers
    requires { length matches.now / 2 ≤ length floats.old }
    ensures { report_of result pose matches.now
        ≡ reported (fixed_of course.now.k) pose matches.now
        (rows course.now.spots.now course.now.directions.now matches.now) }
{
    let n = matches.len() / 2;
    let in_front = course.residuals(matches, pose, floats);
    let sum = sum_squares(&floats[0..n]);
    let rms = root_mean(sum, in_front);
    let cov = covariance(course, pose, matches, sum);
    let cd = cd_from_theta(pose.theta, course.k.scale, course.k.mirror);
    Numbers { rms, cd, cov }
}
