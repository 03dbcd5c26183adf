// The projections on angles.
ghost use Rattle.std.specs.Prelude.{◌≡◌};
ghost use Rattle.project.specs.Project.{divided, tan_project, away_from, inverse_tan_project, cd_from_theta, predict_tanplane};

use crate::{PLANE_CUT, Plane, Roll, Sky};
use angles::{asin, atan, atan2, sin_cos};
use rounding::{clamp, sqrt};

// A squared offset below this is none.
const NO_OFFSET: f64 = 1e-30;

// What a pair of numerators and a denominator project to: nothing on or behind the plane. A NaN denominator is not at most the cut.
#[tactic(auto, unfolding(crate::specs::Project::divided))]
fn divided(cut: f64, q: Plane, denom: f64) -> Option<Plane>
    ensures { result ≡ divided cut q.xi q.eta denom }
{
    if denom <= cut {
        return None;
    }
    Some(Plane {
        xi: q.xi / denom,
        eta: q.eta / denom,
    })
}

// The point p of the sky on the tangent plane at crval, if it lies in front of it.
#[tactic(auto, unfolding(crate::specs::Project::tan_project))]
pub fn tan_project(p: Sky, crval: Sky) -> Option<Plane>
    ensures { result ≡ tan_project p.ra p.dec crval.ra crval.dec }
{
    let a = sin_cos(p.ra - crval.ra);
    let d = sin_cos(p.dec);
    let d0 = sin_cos(crval.dec);
    let q = Plane {
        xi: d.cos * a.sin,
        eta: d.sin * d0.cos - d.cos * d0.sin * a.cos,
    };
    divided(PLANE_CUT, q, d.sin * d0.sin + d.cos * d0.cos * a.cos)
}

// The point of the sky at the point q of the tangent plane at crval, off its origin: c is the angle from the origin, and rho the tangent of c.
fn away_from(q: Plane, crval: Sky, rho: f64, c: f64) -> Sky
    ensures { result ≡ away_from q.xi q.eta crval.ra crval.dec rho c }
{
    let t = sin_cos(c);
    let d0 = sin_cos(crval.dec);
    let sin_dec = clamp(t.cos * d0.sin + q.eta * t.sin * d0.cos / rho, -1.0, 1.0);
    let turn = atan2(q.xi * t.sin, rho * d0.cos * t.cos - q.eta * d0.sin * t.sin);
    Sky {
        ra: crval.ra + turn,
        dec: asin(sin_dec),
    }
}

// The point of the sky at the point q of the tangent plane at crval.
#[tactic(auto, unfolding(crate::specs::Project::inverse_tan_project))]
pub fn inverse_tan_project(q: Plane, crval: Sky) -> Sky
    ensures { result ≡ inverse_tan_project q.xi q.eta crval.ra crval.dec }
{
    let rho_sq = q.xi * q.xi + q.eta * q.eta;
    if rho_sq < NO_OFFSET {
        return crval;
    }
    let rho = sqrt(rho_sq);
    away_from(q, crval, rho, atan(rho))
}

// The matrix from pixels to the tangent plane. theta is the roll of the frame in which the mirror is already undone, so that for a mirrored
// image the first column is negated.
// Stays (no plainer): the mirror is a datum of the image, as in the Rust; it turns a sign and chooses no step.
#[tactic(auto, unfolding(crate::specs::Project::cd_from_theta))]
pub fn cd_from_theta(theta: f64, pixel_scale: f64, parity_flip: bool) -> [[f64; 2]; 2]
    ensures { result ≡ cd_from_theta theta pixel_scale parity_flip }
{
    let t = sin_cos(theta);
    let ps = pixel_scale;
    if parity_flip {
        [[-ps * t.cos, -ps * t.sin], [-ps * t.sin, ps * t.cos]]
    } else {
        [[ps * t.cos, -ps * t.sin], [ps * t.sin, ps * t.cos]]
    }
}

// Where a spot at (px, py) lies on the tangent plane.
#[tactic(auto, unfolding(crate::specs::Project::predict_tanplane))]
pub fn predict_tanplane(px: f64, py: f64, t: Roll) -> Plane
    ensures { result ≡ predict_tanplane px py t.cos_t t.sin_t t.ps }
{
    Plane {
        xi: t.ps * (t.cos_t * px - t.sin_t * py),
        eta: t.ps * (t.sin_t * px + t.cos_t * py),
    }
}
