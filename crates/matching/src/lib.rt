// Greedy one-to-one matching of spots with predictions: `greedy_unique_matches` of the Rust's solver/matching.rs, for f64.
#![tactic(auto)]

ghost use Rattle.std.specs.Prelude.{◌≡◌, [], ◌*◌, ◌≤◌, length, Err};
ghost use Rattle.matching.specs.Merge.{not_after, merged};
ghost use Rattle.matching.specs.Comparisons.{comparisons};
ghost use Rattle.matching.specs.Greedy.{Outcome, assigned, cleared, cleared_n, placed, greedy_unique_matches, greedy_by_strips};
ghost use Rattle.pairs.specs.Elements.{All};
ghost use Rattle.pairs.specs.Candidates.{Inside};
ghost use Rattle.pairs.specs.Lent.{Same};
ghost use Rattle.matching.specs.Halves.{standing};
ghost use Rattle.matching.specs.Layout.{marks, places, outcome};
ghost use Rattle.refusal.specs.declared.Refusal.TheVariants.{ManyPairs};

mod assign; // assign.rt: pairs offered, and marks
mod half; // half.rt: where pairs stand in the candidate lists
mod merge; // merge.rt: pairs put in order
mod sizes; // sizes.rt: how many spots and predictions there are
mod two_runs; // two_runs.rt: two runs of pairs

use half::Half;
use pairs::{Candidates, Search};
use refusal::Refusal;
use sizes::Sizes;

// What a call of the matcher answers, and how often it compared two pairs to put them in order: 0 where it ordered none. So many matches stand in the
// work list, after its marks; or there are more pairs within the radius than the candidate lists hold, or the work list is too short for the marks and
// the matches.
#[derive(Clone, Copy)]
pub struct Matching {
    pub matched: Result<usize, Refusal>,
    pub comparisons: usize,
}

// An answer that no ordering came before.
fn unordered(matched: Result<usize, Refusal>) -> Matching
    ensures { (result.matched ≡ matched) × (result.comparisons ≡ 0) }
{
    Matching {
        matched,
        comparisons: 0,
    }
}

// The pairs of a half are put in order and offered; the marks and the candidate places are left zero. That many matches stand after the marks.
fn settle(n: Sizes, half: Half, c: &mut Candidates<'_>, work: &mut [usize]) -> Matching
    requires { (places n ≤ length work.old) × All (Inside n.spots n.predictions) (standing half c.old) }
    ensures { Same c.old c.new
        × (outcome result.matched result.comparisons c.new.distances.now c.new.indices.now work.new
        ≡ placed (marks n) c.old.n
        (comparisons not_after (standing half c.old))
        (assigned [] (merged not_after (standing half c.old)))
        c.old.distances.now c.old.indices.now work.old) }
{
    let marked = n.marks();
    let o = merge::order(c, half);
    lists::clear(work, marked);
    let t = assign::assign(c, o.half, n, work);
    lists::clear(work, marked);
    lists::clear(c.distances, 2 * c.n);
    lists::clear(c.indices, 4 * c.n);
    Matching {
        matched: Ok(t),
        comparisons: o.compared,
    }
}

// What is answered where a pair found no place in the candidate lists: the places of those that did are left zero.
fn too_many(c: &mut Candidates<'_>) -> Matching
    ensures { Same c.old c.new
        × (result.matched ≡ Err ManyPairs)
        × (result.comparisons ≡ 0)
        × (c.new.distances.now ≡ cleared c.old.cap c.old.distances.now)
        × (c.new.indices.now ≡ cleared_n (2 * c.old.cap) c.old.indices.now) }
{
    lists::clear(c.distances, c.cap);
    lists::clear(c.indices, 2 * c.cap);
    unordered(Err(Refusal::ManyPairs))
}

// Matches the spots, the first `max_points` of them, with the predictions: pairs within the radius are taken nearest first,
// each spot and each prediction once. Points are flat, x then y. `distances` and `indices` are room for the pairs; `work`
// has room for a mark of each spot and prediction, and then the matches, spot and prediction.
// Stays (form of 01): the lists are lent flat, each by itself; inside, the candidate lists are one `Candidates`.
pub fn greedy_unique_matches(
    points: &[f64],
    max_points: usize,
    predicted: &[f64],
    radius_sq: f64,
    distances: &mut [f64],
    indices: &mut [usize],
    work: &mut [usize],
) -> Matching
    ensures { ◌≡◌ {A = Outcome}
        (record {
          answer = result.matched;
          comparisons = result.comparisons;
          distances = distances.new;
          indices = indices.new;
          work = work.new;
        })
        (greedy_unique_matches points.now max_points predicted.now radius_sq
        distances.old indices.old work.old) }
{
    let s = Search::new(points, max_points, predicted, radius_sq);
    let n = Sizes::of(s);
    if work.len() < n.places() {
        return unordered(Err(Refusal::ShortList));
    }
    let mut c = Candidates::new(distances, indices);
    match pairs::collect(s, &mut c) {
        Some(()) => settle(n, Half::First, &mut c, work),
        None => too_many(&mut c),
    }
}

// The same matches, found more quickly: `work` has room in front of the marks, two places for each spot, where the spots are sorted into strips, so
// that a prediction is tried only with the spots of the strips near it. That room is left zero.
// Stays (form of 01): the lists are lent flat, each by itself, as above; the room, the search and the half are this one's own, so that the two are no twins.
pub fn greedy_unique_matches_by_strips(
    points: &[f64],
    max_points: usize,
    predicted: &[f64],
    radius_sq: f64,
    distances: &mut [f64],
    indices: &mut [usize],
    work: &mut [usize],
) -> Matching
    ensures { ◌≡◌ {A = Outcome}
        (record {
          answer = result.matched;
          comparisons = result.comparisons;
          distances = distances.new;
          indices = indices.new;
          work = work.new;
        })
        (greedy_by_strips points.now max_points predicted.now radius_sq
        distances.old indices.old work.old) }
{
    let s = Search::new(points, max_points, predicted, radius_sq);
    let n = Sizes::of(s);
    let room = 2 * n.spots;
    if work.len() < room + n.places() {
        return unordered(Err(Refusal::ShortList));
    }
    let mut c = Candidates::new(distances, indices);
    match pairs::collect_by_strips(s, &mut c, work) {
        Some(()) => {
            c.put_by_spot(n.spots, work);
            settle(n, Half::Second, &mut c, &mut work[room..])
        }
        None => too_many(&mut c),
    }
}
