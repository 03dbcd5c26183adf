// The fit of wcs_refine.rs: what a match brings to it, the normal equations, and one pass.
#![tactic(auto)]

ghost use Rattle.std.specs.Prelude.{◌≡◌};

use project::{Roll, Sky};

mod rows; // rows.rt: what a match brings to the fit
mod normal; // normal.rt: the normal equations, and one pass of the fit

pub use normal::{accumulate_normal_equations, ls_fit_once, normal_matrix};
pub use rows::{direction_at, view_of};

// The pose: roll, the boresight's right ascension and declination, and the pixel scale, in radians and radians per pixel.
#[derive(Clone, Copy, Default)]
pub struct Pose {
    pub theta: f64,
    pub ra: f64,
    pub dec: f64,
    pub scale: f64,
}

impl Pose {
    // The boresight's point of the sky.
    pub fn crval(&self) -> Sky
        ensures { (result.ra ≡ self.now.ra) × (result.dec ≡ self.now.dec) }
    {
        Sky {
            ra: self.ra,
            dec: self.dec,
        }
    }
}

// What a pass computes once from the pose: the basis of its tangent plane, and the roll with the scale. The plane cut stands beside them.
#[derive(Clone, Copy)]
pub struct View {
    pub basis: [[f64; 3]; 3],
    pub roll: Roll,
    pub cut: f64,
}

// The normal equations, the matrix by rows.
#[derive(Clone, Copy, Default)]
pub struct Sums {
    pub ata: [[f64; 3]; 3],
    pub atb: [f64; 3],
}

// Sums, and the number of matches that they are over.
#[derive(Clone, Copy, Default)]
pub struct Counted {
    pub sums: Sums,
    pub n: usize,
}
