// The matcher that was chosen for the call: each leaves the same matches at the same place.
ghost use Rattle.std.specs.Prelude.{◌≡◌, ◌≤◌, length};
ghost use Rattle.pairs.specs.Strips.{strip_room};
ghost use Rattle.matching.specs.Greedy.{Outcome};
ghost use Rattle.wcs_refine.specs.Choosing.{chosen};

use entry::Matcher;
use matching::{Matching, greedy_unique_matches_by_strips};
use scanning::greedy_unique_matches_by_scanning;

// `work` has room for strips in front of the marks. The scanning matcher has no use for it, and leaves it zero as the listed one does.
#[tactic(auto, unfolding(crate::specs::Choosing::chosen, crate::specs::Choosing::scanned_behind))]
pub(crate) fn matched(
    matcher: Matcher,
    points: &[f64],
    max_points: usize,
    predicted: &[f64],
    radius_sq: f64,
    distances: &mut [f64],
    indices: &mut [usize],
    work: &mut [usize],
) -> Matching
    requires { strip_room points.now max_points ≤ length work.old }
    ensures { ◌≡◌ {A = Outcome}
        (record {
          answer = result.matched;
          comparisons = result.comparisons;
          distances = distances.new;
          indices = indices.new;
          work = work.new;
        })
        (chosen matcher points.now max_points predicted.now radius_sq
        distances.old indices.old work.old) }
{
    match matcher {
        Matcher::Listing => greedy_unique_matches_by_strips(
            points, max_points, predicted, radius_sq, distances, indices, work,
        ),
        Matcher::Scanning => {
            let room = 2 * (points.len() / 2).min(max_points);
            lists::clear(work, room);
            let matched = greedy_unique_matches_by_scanning(
                points,
                max_points,
                predicted,
                radius_sq,
                &mut work[room..],
            );
            Matching {
                matched,
                comparisons: 0,
            }
        }
    }
}
