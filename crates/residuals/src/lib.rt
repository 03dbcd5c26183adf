// The residuals of matches, their statistics and the clip of wcs_refine.rs.
#![tactic(auto)]

mod residual; // residual.rt: what is left between the spots and the directions
mod clipping; // clipping.rt: the matches that lie too far off

pub use clipping::mad_clip_matches;
pub use residual::{compute_residuals, residual_median_sigma};

// Stands in the place of the residual of a match on or behind the plane. A residual is a square root, and never below zero.
// Stays (fixed memory): the residuals lie in a lent list of floats, in which an `Option` has no place.
pub const NO_RESIDUAL: f64 = -1.0;
