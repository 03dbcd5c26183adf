// Pairs are offered in order; marks say which spots and predictions are taken.
// Stays (fixed memory): a mark is a 0 or a 1 in the lent list of numbers; a list of truth values, or a set, would need memory that is not lent.
ghost use Rattle.std.specs.Prelude.{◌≡◌, ℕ, ◌+◌, ◌*◌, ◌<◌, ◌≤◌, ◌^◌, length, get_or};
ghost use Rattle.matching.specs.Halves.{begin};
ghost use Rattle.matching.specs.Layout.{marks, taking, offered, offers};

use crate::half::Half;
use crate::sizes::Sizes;
use pairs::Candidates;

// A spot and a prediction are taken unless one of them is marked. How many matches there are then is the result.
fn offer(work: &mut [usize], n: Sizes, t: usize, spot: usize, prediction: usize) -> usize
    requires { (n.spots + prediction < 2 ^ 64) × (marks n + 2 * t + 1 < 2 ^ 64) }
    ensures { (result ≤ t + 1)
        × (taking result work.new ≡ offered n.spots (marks n) (taking t work.old) spot prediction) }
{
    if lists::number_at(&work[..], spot) == 0 {
        if lists::number_at(&work[..], n.spots + prediction) == 0 {
            lists::put(work, spot, 1);
            lists::put(work, n.spots + prediction, 1);
            lists::put(work, n.marks() + 2 * t, spot);
            lists::put(work, n.marks() + 2 * t + 1, prediction);
            return t + 1;
        }
    }
    t
}

// The pairs of a half are offered in turn. How many matches there are then is the result.
#[tactic(auto, unfolding(crate::specs::Layout::offers))]
pub(crate) fn assign(c: &Candidates<'_>, half: Half, n: Sizes, work: &mut [usize]) -> usize
    requires { (marks n ≤ length work.old)
        × ((k : ℕ) → k < c.now.n → n.spots + get_or c.now.indices.now (2 * (begin half c.now.n + k) + 1) 0 < 2 ^ 64) }
    ensures { taking result work.new
        ≡ offers n.spots (marks n) c.now.indices.now (begin half c.now.n) c.now.n (taking 0 work.old) }
{
    let from = half.begin(c.n);
    let mut t: usize = 0;
    for k in from..from + c.n {
        let spot = c.indices[2 * k];
        let prediction = c.indices[2 * k + 1];
        t = offer(work, n, t, spot, prediction);
    }
    t
}
