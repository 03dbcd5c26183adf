// Tries the refinement call at both sides of its bounds, and tries, premise by premise, the theorem about two calls. One line a trial.
#![tactic(auto)]

mod bounds; // bounds.rt: refusals 5 to 11 and 14
mod weights; // weights.rt: refusal 17
mod afterwards; // afterwards.rt: the lists after refusals 14 and 17
mod cuts; // cuts.rt: directions at the cut
mod runs; // runs.rt: refusals 12 and 13, with either matcher
mod two_calls; // two_calls.rt: two calls that differ
mod call; // call.rt: a call, and what is written of a trial

// 1e-12, the cut of the trials that are about something else.
pub(crate) const LEAST_CUT: f64 = 1e-12;

fn main(rt: HostRuntime) {
    bounds::even(&rt);
    bounds::few(&rt);
    bounds::scale(&rt);
    bounds::radius(&rt);
    bounds::cut(&rt);
    bounds::order(&rt);
    bounds::coordinates(&rt);
    bounds::components(&rt);
    weights::bounds(&rt);
    weights::order(&rt);
    bounds::named(&rt);
    bounds::long(&rt);
    afterwards::all(&rt);
    cuts::grazing(&rt);
    runs::turns(&rt);
    runs::candidates(&rt);
    two_calls::all(&rt);
}
