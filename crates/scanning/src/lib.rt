// Greedy one-to-one matching without a candidate list: the matches of `matching`, found by going over spots and predictions again for each.
#![tactic(auto)]

ghost use Rattle.std.specs.Prelude.{◌≡◌};
ghost use Rattle.scanning.specs.Scanning.{Scan, greedy_by_scanning};

mod scan; // scan.rt: one scan, and the marks that it keeps
mod taking; // taking.rt: scan after scan, each with its match

use pairs::Search;
use refusal::Refusal;

// Matches the spots, the first `max_points` of them, with the predictions: pairs within the radius are taken nearest first, each spot and each prediction
// once. Points are flat, x then y. `work` has room for a mark of each spot and prediction, and then the matches, spot and prediction; how many there
// are is answered. Where spots and predictions stay free it looks at each pair of them once for each match, and once more.
pub fn greedy_unique_matches_by_scanning(
    points: &[f64],
    max_points: usize,
    predicted: &[f64],
    radius_sq: f64,
    work: &mut [usize],
) -> Result<usize, Refusal>
    ensures { ◌≡◌ {A = Scan}
        (record { answer = result; work = work.new })
        (greedy_by_scanning points.now max_points predicted.now radius_sq work.old) }
{
    let s = Search::new(points, max_points, predicted, radius_sq);
    let marked = s.np + s.predicted.len() / 2;
    let most = s.np.min(s.predicted.len() / 2);
    if work.len() < marked + 2 * most {
        return Err(Refusal::ShortList);
    }
    let t = taking::take_closest(s, work);
    lists::clear(work, marked);
    Ok(t)
}
