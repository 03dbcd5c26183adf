// What a match brings to the fit beside its spot: its direction, and what the pose brings. Each number past the end of the list reads as NaN, so
// that every index has a direction.
ghost use Rattle.std.specs.Prelude.{◌≡◌};
ghost use Rattle.fit.specs.Rows.{direction_at, view_of};

use crate::{Pose, View};
use angles::sin_cos;
use panel::three_at;
use project::{Roll, tan_basis};

// The direction i of a flat list, three components each.
pub fn direction_at(directions: &[f32], i: usize) -> [f32; 3]
    ensures { result ≡ direction_at directions.now i }
{
    three_at(directions, i, f32::NAN)
}

// What a pass computes once from the pose.
// Stays (form of 01): the plane cut is a number of the call and no part of a pose, so the two come side by side, to the fit and the residuals too.
#[tactic(auto, unfolding(crate::specs::Rows::view_of, angles::specs::SinCos::sin, angles::specs::SinCos::cos))]
pub fn view_of(pose: Pose, cut: f64) -> View
    ensures { result ≡ view_of pose cut }
{
    let t = sin_cos(pose.theta);
    View {
        basis: tan_basis(pose.crval()),
        roll: Roll {
            cos_t: t.cos,
            sin_t: t.sin,
            ps: pose.scale,
        },
        cut,
    }
}
