// One scan: all pairs of a free spot and a free prediction are gone over, by spot and then prediction, for the closest within the radius.
ghost use Rattle.std.specs.Prelude.{◌≡◌, ◌<◌, ◌≤◌, false, length};
ghost use Rattle.scanning.specs.Seeking.{marks, gone, Takeable, OfSpot, BestOf, frame_of, Looked, Sifted, Settled, closer};

use pairs::Search;

// Marks stand in front of the work list, one for each spot and then one for each prediction. What is gone was taken, or has nothing left that it could be
// matched with, and is not looked at again. During a scan a prediction is seen once it lies within the radius of a free spot.
// A mark is a number, as it lies in the lent list of numbers.
const FREE: usize = 0;

pub(crate) const GONE: usize = 1;

const SEEN: usize = 2;

// A pair within the radius, with its squared distance.
#[derive(Clone, Copy)]
pub(crate) struct Found {
    pub d2: f64,
    pub spot: usize,
    pub prediction: usize,
}

// The closer of the best pair so far and the next one. Of two that are equally far apart the one that was found first stays: spots and predictions
// ascend.
#[tactic(auto, unfolding(crate::specs::Seeking::closer))]
fn closer(best: Option<Found>, next: Found) -> Option<Found>
    ensures { result ≡ closer best next }
{
    match best {
        Some(b) if !(next.d2 < b.d2) => best,
        _ => Some(next),
    }
}

// The closest of the free predictions within the radius of a spot that is not gone. Each of them is marked as seen.
fn nearest(s: Search<'_>, spot: usize, work: &mut [usize]) -> Option<Found>
    requires { (spot < s.np) × (marks s ≤ length work.old) × (gone work.old spot ≡ false) }
    ensures { BestOf (frame_of s.entry) (OfSpot s.entry spot work.old) result
        × Looked s.entry spot work.old work.new }
{
    let x = s.points[2 * spot];
    let y = s.points[2 * spot + 1];
    let mut best = None;
    for j in 0..s.predicted.len() / 2 {
        if work[s.np + j] != GONE {
            let dx = x - s.predicted[2 * j];
            let dy = y - s.predicted[2 * j + 1];
            let d2 = dx * dx + dy * dy;
            if d2 <= s.radius_sq {
                work[s.np + j] = SEEN;
                best = closer(
                    best,
                    Found {
                        d2,
                        spot,
                        prediction: j,
                    },
                );
            }
        }
    }
    best
}

// A prediction that was not seen in a whole scan has no free spot left within the radius, and never will: it is gone. The others are free for the next.
fn settle(s: Search<'_>, work: &mut [usize])
    requires { marks s ≤ length work.old }
    ensures { Settled s.entry work.old work.new }
{
    for j in 0..s.predicted.len() / 2 {
        work[s.np + j] = if work[s.np + j] == SEEN { FREE } else { GONE };
    }
}

// The closest pair that may be taken, if any. A spot with no free prediction left within the radius is gone from here on, and so is such a prediction.
pub(crate) fn closest(s: Search<'_>, work: &mut [usize]) -> Option<Found>
    requires { marks s ≤ length work.old }
    ensures { BestOf (frame_of s.entry) (Takeable s.entry work.old) result
        × Sifted s.entry work.old work.new }
{
    let mut best = None;
    for i in 0..s.np {
        if work[i] != GONE {
            match nearest(s, i, work) {
                Some(n) => best = closer(best, n),
                None => work[i] = GONE,
            }
        }
    }
    settle(s, work);
    best
}
