// The spots' coordinates by themselves: the matcher reads points of two numbers.
ghost use Rattle.std.specs.Prelude.{◌≡◌, ◌/◌, min, length};
ghost use Rattle.lists.specs.Fronted.{fronted};
ghost use Rattle.panel.specs.Points.{coordinates};

use crate::spots::spot_at;

// The points of the first n spots, x then y, at the front of a list: as many of them as it has room for.
#[tactic(auto, unfolding(crate::specs::Points::coordinates))]
pub fn lay_points(spots: &[f64], n: usize, points: &mut [f64])
    ensures { points.new
        ≡ fronted (coordinates spots.now 0 (min n (length points.old / 2)))
        points.old }
{
    for i in 0..n.min(points.len() / 2) {
        let s = spot_at(spots, i);
        points[2 * i] = s.px;
        points[2 * i + 1] = s.py;
    }
}
