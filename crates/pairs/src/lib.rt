// The candidate pairs: those of a spot and a prediction that lie within the radius. All pairs are tried, or only those of the strips near a prediction.
#![tactic(auto)]

ghost use Rattle.std.specs.Prelude.{◌≡◌, length};
ghost use Rattle.pairs.specs.Candidates.{pushed};
ghost use Rattle.pairs.specs.Lent.{found_in, Tried};
ghost use Rattle.pairs.specs.Strips.{pairs_nearby, room_after};

mod by_spot; // by_spot.rt: the pairs found, put by spot
mod candidates; // candidates.rt: the lists that hold them
mod pairs; // pairs.rt: all pairs, tried in turn
mod search; // search.rt: what is asked for
mod strips; // strips.rt: the pairs found by strips

pub use by_spot::put_by_spot;
pub use candidates::Candidates;
pub use pairs::collect;
pub use search::Search;

// The same pairs in another order, found more quickly: `work` has room, two places for each spot, where the spots are sorted into strips, so that a
// prediction is tried only with the spots of the strips near it. That room is left zero. Where it is too short all pairs are tried.
// Not made part of its callers: by itself its loops are compiled with fewer loads.
#[inline(never)]
pub fn collect_by_strips(s: Search<'_>, c: &mut Candidates<'_>, work: &mut [usize]) -> Option<()>
    ensures { Tried c.old result c.new
        (pushed c.old.cap (found_in c.old)
        (pairs_nearby s.entry.points.now s.entry.np s.entry.predicted.now s.entry.radius_sq (length work.old)))
        × (work.new ≡ room_after s.entry.points.now s.entry.np work.old) }
{
    let room = 2 * s.np;
    if work.len() < room {
        return collect(s, c);
    }
    let found = strips::collect(s, c, work);
    lists::clear(work, room);
    found
}
