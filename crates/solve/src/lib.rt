// The 3x3 solver of wcs_refine.rs and the covariance; its specs have the vectors and constants that the projections and the fit share.
#![tactic(auto)]

mod solve; // solve.rt: the solution of three equations
mod covariance; // covariance.rt: how sure the fit is

pub use covariance::covariance_from_normal;
pub use solve::solve_3x3;

// The corrections of theta, xi and eta that solve the normal equations.
// Stays (form of 01): it has the solution as an enum whose solved case carries the three corrections as floats.
#[derive(Clone, Copy)]
pub enum Solution {
    Solved(f64, f64, f64),
    Failed,
}

// The largest magnitude of a column so far, and its row.
#[derive(Clone, Copy)]
pub struct Pivot {
    pub row: usize,
    pub size: f64,
}
