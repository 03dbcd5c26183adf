// What a run computes once from its arguments.
ghost use Rattle.std.specs.Prelude.{◌≡◌};
ghost use Rattle.rounding.specs.Arith.{zero64};
ghost use Rattle.entry.specs.Fixed.{farthest, fixed_from, start_pose_of, requery_margin, search_radius, requery_cos, radius_px, prune_r, margin_px, keep_r, theta_margin};
ghost use Rattle.entry.specs.Entry.{fixed_of};

use crate::{Matcher, Settings};
use angles::{asin, atan2, cos};
use fit::Pose;
use panel::{SPOT_NUMBERS, spot_at};
use project::{Sky, dot, plane_at, widened};
use rounding::{clamp, max, sqrt, widen};

// The greatest distance of the first n spots, or 0 if there are none: the root of the greatest square.
// Stays (no plainer): it promises this of every n, of more spots than the list has too; of a slice of n spots it would promise less.
pub fn farthest_of(spots: &[f64], n: usize) -> f64
    ensures { result ≡ farthest spots.now 0 n zero64 }
{
    let mut square: f64 = 0.0;
    for i in 0..n {
        let s = spot_at(spots, i);
        square = max(square, s.px * s.px + s.py * s.py);
    }
    sqrt(square)
}

// What the rounds read beside spots, directions and their state. Of the directions and of the candidate lists only the lengths count.
// Stays (form of 01): the numbers of a call come each by itself, in the call's own order.
#[tactic(auto, unfolding(crate::specs::Fixed::fixed_from))]
pub fn settings_of(
    spots: &[f64],
    directions: usize,
    scale: f64,
    mirror: bool,
    radius: f32,
    cut: f64,
    limit: usize,
    matcher: Matcher,
    distances: usize,
    indices: usize,
) -> Settings
    ensures { fixed_of result ≡ fixed_from spots.now directions scale mirror radius cut limit matcher distances indices }
{
    // Those beyond the matching limit count too.
    let far = farthest_of(spots, spots.len() / SPOT_NUMBERS);
    let capacity = (distances / 2).min(indices / 4);
    let wide = widen(radius);
    Settings {
        scale,
        mirror,
        radius: wide,
        limit,
        matcher,
        count: directions / 3,
        capacity,
        cut,
        far,
    }
}

// ---- the start pose

// From the rotation's third row, the boresight, and its first, the camera's x axis.
pub fn start_pose(rotation: [[f32; 3]; 3], scale: f64) -> Pose
    ensures { result ≡ start_pose_of rotation scale }
{
    let z = widened(rotation[2]);
    let x = widened(rotation[0]);
    let ra = atan2(z[1], z[0]);
    let dec = asin(clamp(z[2], -1.0, 1.0));
    let [east, north, _] = plane_at(Sky { ra, dec });
    let theta = atan2(dot(x, north), dot(x, east));
    Pose {
        theta,
        ra,
        dec,
        scale,
    }
}

// ---- the radii of the re-association, the same in every round

impl Settings {
    #[tactic(auto, unfolding(crate::specs::Fixed::requery_margin))]
    pub fn requery_margin(&self) -> f64
        ensures { result ≡ requery_margin (fixed_of self.now) }
    {
        self.radius * 2.0
    }

    #[tactic(auto, unfolding(crate::specs::Fixed::search_radius))]
    pub fn search_radius(&self) -> f64
        ensures { result ≡ search_radius (fixed_of self.now) }
    {
        max(self.scale * self.far * 1.5, self.radius * 2.0)
    }

    #[tactic(auto, unfolding(crate::specs::Fixed::requery_cos))]
    pub fn requery_cos(&self) -> f64
        ensures { result ≡ requery_cos (fixed_of self.now) }
    {
        cos(self.requery_margin())
    }

    #[tactic(auto, unfolding(crate::specs::Fixed::radius_px))]
    pub fn radius_px(&self) -> f64
        ensures { result ≡ radius_px (fixed_of self.now) }
    {
        self.radius / self.scale
    }

    #[tactic(auto, unfolding(crate::specs::Fixed::prune_r))]
    pub fn prune_r(&self) -> f64
        ensures { result ≡ prune_r (fixed_of self.now) }
    {
        self.far + self.radius_px()
    }

    #[tactic(auto, unfolding(crate::specs::Fixed::margin_px))]
    pub fn margin_px(&self) -> f64
        ensures { result ≡ margin_px (fixed_of self.now) }
    {
        self.requery_margin() / self.scale
    }

    #[tactic(auto, unfolding(crate::specs::Fixed::keep_r))]
    pub fn keep_r(&self) -> f64
        ensures { result ≡ keep_r (fixed_of self.now) }
    {
        self.prune_r() + 3.0 * self.margin_px()
    }

    #[tactic(auto, unfolding(crate::specs::Fixed::theta_margin))]
    pub fn theta_margin(&self) -> f64
        ensures { result ≡ theta_margin (fixed_of self.now) }
    {
        self.margin_px() / self.keep_r()
    }
}
