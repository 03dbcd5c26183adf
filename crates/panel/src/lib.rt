// What a panel gives: spots, flat in a list, and the points of them that the matcher reads. The directions of the sky lie flat in the same way.
#![tactic(auto)]

mod threes; // threes.rt: three things that lie together
mod spots; // spots.rt: a spot of a flat list
mod points; // points.rt: the spots' coordinates by themselves

pub use points::lay_points;
pub use spots::{SPOT_NUMBERS, spot_at};
pub use threes::three_at;

// A spot of the panel: its place in pixels from the centre, and its weight, how much it pulls on the pose.
#[derive(Clone, Copy)]
pub struct Spot {
    pub px: f64,
    pub py: f64,
    pub weight: f64,
}
