// Which directions a round looks at: the cone query, the cached one, and where directions fall on the panel.
#![tactic(auto)]

use fit::Pose;

mod scan; // scan.rt: the cone query
mod falls; // falls.rt: where the listed directions fall
mod caching; // caching.rt: whether the cached query serves

pub use caching::{after_query, is_due, without_query};
pub use scan::{axis32, least_cos_of, scan_into};

// The pose, how many matches there are, and the cached query: whether there is one, its boresight and roll, and how many directions it lists.
// Stays (form of 01): `reassoc_cache` "becomes a flag, boresight, theta and a part of the working list".
#[derive(Clone, Copy)]
pub struct Held {
    pub pose: Pose,
    pub used: usize,
    pub filled: bool,
    pub boresight: [f64; 3],
    pub theta: f64,
    pub cached: usize,
}

// How many predictions stand in their regions, and how many queries were made: one or none.
#[derive(Drop)]
pub struct Looked {
    pub held: Held,
    pub predicted: usize,
    pub queries: usize,
}

// What directions fall on: the directions themselves, the camera's axes as rows, the inverse of the pixel scale, the plane cut, and how far from
// the optical centre the panel reaches.
#[derive(Clone, Copy)]
pub struct Projection<'a> {
    pub directions: &'a [f32],
    pub rows: [[f64; 3]; 3],
    pub inv: f64,
    pub cut: f64,
    pub r: f64,
}

// A point of the panel, and whether a direction that falls there reaches it.
// Stays (no plainer): `fall_at` promises where a direction falls outside too, and with an option of a point that promise would be gone.
#[derive(Drop)]
pub struct Fall {
    pub x: f64,
    pub y: f64,
    pub inside: bool,
}
