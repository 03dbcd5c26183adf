// The candidate pairs, by spot and then prediction.
ghost use Rattle.std.specs.Prelude.{◌/◌, ◌<◌, [], length};
ghost use Rattle.rounding.specs.Arith.{◌⊕◌, ◌⊗◌};
ghost use Rattle.pairs.specs.Pairs.{point_at, within, pairs_of, pairs};
ghost use Rattle.pairs.specs.Candidates.{pair, pushed};
ghost use Rattle.pairs.specs.Lent.{found_in, Tried};

use crate::candidates::Candidates;
use crate::search::Search;

// The pair of a spot and a prediction, dx and dy apart, goes after those that stand there where it is within the radius. None is answered where it
// finds no place.
// Made part of its callers: theirs are the hottest loops.
#[inline(always)]
#[tactic(auto, unfolding(crate::specs::Pairs::within, crate::specs::Candidates::pushed, crate::specs::Lent::how_many))]
pub(crate) fn try_pair(
    dx: f64,
    dy: f64,
    radius_sq: f64,
    spot: usize,
    prediction: usize,
    c: &mut Candidates<'_>,
) -> Option<()>
    ensures { Tried c.old result c.new
        (pushed c.old.cap (found_in c.old) (within radius_sq (pair (dx ⊗ dx ⊕ dy ⊗ dy) spot prediction) [])) }
{
    let d2 = dx * dx + dy * dy;
    if d2 <= radius_sq {
        let n = c.n;
        if c.cap <= n {
            return None;
        }
        c.distances[n] = d2;
        c.indices[2 * n] = spot;
        c.indices[2 * n + 1] = prediction;
        c.n = n + 1;
    }
    Some(())
}

// The pairs of spot i with all predictions go after those that stand there. None is answered as soon as a pair finds no place.
#[tactic(auto, unfolding(crate::specs::Pairs::pairs_of, crate::specs::Pairs::squared, crate::specs::Pairs::point_at))]
fn collect_spot(s: Search<'_>, i: usize, c: &mut Candidates<'_>) -> Option<()>
    requires { i < s.np }
    ensures { Tried c.old result c.new
        (pushed c.old.cap (found_in c.old)
        (pairs_of s.entry.radius_sq s.entry.predicted.now i (point_at s.entry.points.now i) 0 (length s.entry.predicted.now / 2))) }
{
    let x = s.points[2 * i];
    let y = s.points[2 * i + 1];
    for j in 0..s.predicted.len() / 2 {
        let dx = x - s.predicted[2 * j];
        let dy = y - s.predicted[2 * j + 1];
        try_pair(dx, dy, s.radius_sq, i, j, c)?;
    }
    Some(())
}

// All pairs that are asked for go after those that stand there, by spot and then prediction, as many as the lists hold. None is answered where there
// are more.
pub fn collect(s: Search<'_>, c: &mut Candidates<'_>) -> Option<()>
    ensures { Tried c.old result c.new
        (pushed c.old.cap (found_in c.old) (pairs s.entry.points.now s.entry.np s.entry.predicted.now s.entry.radius_sq)) }
{
    for i in 0..s.np {
        collect_spot(s, i, c)?;
    }
    Some(())
}
