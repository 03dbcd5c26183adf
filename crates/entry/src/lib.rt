// What a refinement call does around its run: the checks on entry, what is computed once from the arguments, and the zeroing of its lists.
#![tactic(auto)]

mod bounds; // bounds.rt: the bounds of refusals 6 to 9, 14 and 17
mod refusals; // refusals.rt: the checks on entry, refusals 5 to 11, 14 and 17
mod head; // head.rt: what a run computes once from its arguments
mod clearing; // clearing.rt: the lent lists as a call leaves them

pub use bounds::{
    Bounded, Component, Coordinate, Count, Cut, Directions, Matches, Radius, Rounds, Scale, Spots,
    Weight,
};
pub use clearing::clear_all;
pub use head::{farthest_of, settings_of, start_pose};
pub use refusals::refusal_of;

// The matcher of a call's rounds: the one that lists the candidate pairs, in the lists lent for them, or the one that lists none and goes over spots
// and predictions again for each match.
#[derive(Clone, Copy)]
pub enum Matcher {
    Listing,
    Scanning,
}

// All that the rounds read beside spots, directions and their state, of `count` directions. No code reads `capacity`, since the matcher measures
// its own lists: it stands here so that the settings mean a `Fixed` (`fixed_of` in specs/Entry.antt).
// Stays (no plainer): a ghost field holds a fact; a number it holds only in a struct with `also_owns`, which cannot be copied, as the settings are.
#[derive(Clone, Copy)]
pub struct Settings {
    pub scale: f64,
    pub mirror: bool,
    pub radius: f64,
    pub limit: usize,
    pub matcher: Matcher,
    pub count: usize,
    pub capacity: usize,
    pub cut: f64,
    pub far: f64,
}
