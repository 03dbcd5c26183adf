// The projections of wcs_refine.rs, on angles and on directions.
//
// The plane cut reaches every function of the fit as an argument, since each call gives its own. `tan_project`, which no run uses, keeps the
// Rust's number, PLANE_CUT.
#![tactic(auto)]

mod project; // project.rt: the projections on angles
mod camera; // camera.rt: the camera's axes, and directions on them

pub use camera::{
    boresight_of, camera_rows_f64, dot, plane_at, rotation_from_theta_crval, tan_basis,
    tan_project_vec, wcs_to_rotation, widened,
};
pub use project::{cd_from_theta, inverse_tan_project, predict_tanplane, tan_project};

// A direction whose denominator is at most this lies on or behind the projection plane.
pub const PLANE_CUT: f64 = 1e-12;

// A point of the sky, in radians.
#[derive(Clone, Copy)]
pub struct Sky {
    pub ra: f64,
    pub dec: f64,
}

// A point of the tangent plane, in radians.
#[derive(Clone, Copy)]
pub struct Plane {
    pub xi: f64,
    pub eta: f64,
}

// What takes a spot's pixels to the tangent plane: the cosine and the sine of the roll, and the pixel scale.
#[derive(Clone, Copy)]
pub struct Roll {
    pub cos_t: f64,
    pub sin_t: f64,
    pub ps: f64,
}

// The camera's axes in f32, by rows, the field of view and the mirror.
#[derive(Clone, Copy)]
pub struct WcsRotation {
    pub rotation: [[f32; 3]; 3],
    pub fov: f32,
    pub parity_flip: bool,
}
