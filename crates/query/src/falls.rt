// Where the listed directions fall on the panel.
ghost use Rattle.std.specs.Prelude.{◌≡◌, not, ◌&&◌};
ghost use Rattle.std.specs.Float.Ieee.{le};
ghost use Rattle.rounding.specs.Arith.{◌⊕◌, ◌⊗◌};
ghost use Rattle.query.specs.Listing.{fall_of, falling, falls, standing, Fronted};

use crate::{Fall, Projection};
use entry::Settings;
use fit::direction_at;
use project::{dot, widened};

impl<'a> Projection<'a> {
    // Within a radius, at the scale and the plane cut of a call.
    pub fn new(directions: &'a [f32], rows: [[f64; 3]; 3], k: &Settings, r: f64) -> Self
        ensures { falls result ≡ falling k.now.scale k.now.cut r directions.now rows }
    {
        Projection {
            directions,
            rows,
            inv: 1.0 / k.scale,
            cut: k.cut,
            r,
        }
    }

    // In front of the plane, and within the radius of the optical centre. A NaN is not at most the cut, and not within.
    fn reaches(&self, x: f64, y: f64, z: f64) -> bool
        ensures { result ≡ not (le z self.now.cut) && le (x ⊗ x ⊕ y ⊗ y) (self.now.r ⊗ self.now.r) }
    {
        !(z <= self.cut) && x * x + y * y <= self.r * self.r
    }

    #[tactic(auto, unfolding(crate::specs::Listing::fall_of, solve::specs::Vector::dot))]
    fn fall_of(&self, v: [f32; 3]) -> Fall
        ensures { result ≡ fall_of self.now.inv self.now.cut self.now.r self.now.rows v }
    {
        let w = widened(v);
        let [row_x, row_y, row_z] = self.rows;
        let z = dot(row_z, w);
        let x = self.inv * dot(row_x, w) / z;
        let y = self.inv * dot(row_y, w) / z;
        Fall {
            x,
            y,
            inside: self.reaches(x, y, z),
        }
    }

    // Where the direction j falls.
    pub fn fall_at(&self, j: usize) -> Fall
        ensures { result ≡ falls self.now j }
    {
        self.fall_of(direction_at(self.directions, j))
    }

    // Of the listed directions, those that reach the panel move to the front, and what stands after them stays.
    pub fn prune_in_place(&self, listed: &mut [usize]) -> usize
        ensures { Fronted (standing (falls self.now) listed.old) listed.old listed.new result }
    {
        let mut k = 0;
        for i in 0..listed.len() {
            let j = listed[i];
            let f = self.fall_at(j);
            if f.inside {
                listed[k] = j;
                k += 1;
            }
        }
        k
    }
}
