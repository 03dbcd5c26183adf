// The matcher, by name, in its plain form, by strips and by scanning. The numbers are the limit, the squared radius, spots, and predictions with their
// directions, each list after its count; `within_capacity` has the lengths of the candidate lists before them. The answer ends with how many
// comparisons the ordering of the pairs took.
ghost use Rattle.std.specs.Prelude.{◌≤◌};

use crate::answer::Answer;
use crate::line::Asked;
use crate::word::{at, count_at, list};
use matching::{Matching, greedy_unique_matches, greedy_unique_matches_by_strips};
use refusal::Refusal;
use scanning::greedy_unique_matches_by_scanning;
use std::array;

// A question of the matcher: the numbers of its line, with room for so many distances and indices of candidates, and what stands before the matches
// that it answers.
#[derive(Clone, Copy)]
struct Question<'a> {
    numbers: &'a [usize],
    distances: usize,
    indices: usize,
    before: &'a [usize],
}

// As an option the answer is 1 and the matches, or 0 where there are too many pairs.
pub(crate) fn answer(asked: Asked<'_>) -> Option<&[usize]> {
    let Asked { name, a, e } = asked;
    let question = match name {
        "greedy_unique_matches" => Question {
            numbers: a,
            distances: 1024,
            indices: 2048,
            before: &[],
        },
        "within_capacity" => Question {
            numbers: a.get(2..)?,
            distances: at(a, 0),
            indices: at(a, 1),
            before: &[1],
        },
        _ => return None,
    };
    every_form(question, e)
}

// All forms have to come to the same; by strips there are two places for each spot before the marks.
fn every_form<'e>(q: Question<'_>, e: &'e [usize]) -> Option<&'e [usize]> {
    let spots = at::<usize>(q.numbers, 0).min(count_at(q.numbers, 2));
    let plain = formed(q, greedy_unique_matches, spots, e)?;
    let strips = formed(q, greedy_unique_matches_by_strips, 3 * spots, e)?;
    let scan = scanned(q, spots, plain, e)?;
    if plain.len() == strips.len() && plain.len() == scan.len() {
        Some(plain)
    } else {
        None
    }
}

// Scanning has no capacity to exceed, and makes no comparisons: where listing exceeds its own, that is the answer, and its comparisons stand in for
// those of scanning.
fn scanned<'e>(
    q: Question<'_>,
    spots: usize,
    plain: &'e [usize],
    e: &'e [usize],
) -> Option<&'e [usize]>
    requires { spots ≤ 96 }
{
    if !q.before.is_empty() {
        return Some(plain);
    }
    let form = |points: &[f64], limit: usize, predicted: &[f64], radius_sq: f64, distances: &mut [f64], indices: &mut [usize], work: &mut [usize]| {
        let listed = greedy_unique_matches(
            points, limit, predicted, radius_sq, distances, indices, work,
        );
        match listed.matched {
            Ok(_) => Matching {
                matched: greedy_unique_matches_by_scanning(
                    points, limit, predicted, radius_sq, work,
                ),
                ..listed
            },
            Err(_) => listed,
        }
    };
    formed(q, form, spots, e)
}

// The matches stand behind so many places and the marks of the predictions.
fn formed<'e, F>(
    question: Question<'_>,
    matcher: F,
    places: usize,
    e: &'e [usize],
) -> Option<&'e [usize]>
where
    F: Fn(&[f64], usize, &[f64], f64, &mut [f64], &mut [usize], &mut [usize]) -> Matching,
    requires { F.IsAlwaysCallable matcher × (places ≤ 96) }
{
    let a = question.numbers;
    let s = count_at(a, 2);
    let q = count_at(a, 3 + 2 * s);
    let predictions = a.get(4 + 2 * s..).unwrap_or(&[]);
    let spots: [f64; 64] = list(a, 3);
    // The points of predictions, x and y behind each direction.
    let points: [f64; 64] = array::from_fn(|i| at(
        a,
        (5 + 2 * s).wrapping_add(i).wrapping_add(i / 2),
    ));
    let mut distances = [0.0f64; 1024];
    let mut indices = [0usize; 2048];
    let mut work = [0usize; 192];
    let m = matcher(
        &spots[..2 * s],
        at(a, 0),
        &points[..2 * q],
        at(a, 1),
        &mut distances[..question.distances.min(1024)],
        &mut indices[..question.indices.min(2048)],
        &mut work,
    );
    report(m, question.before, &work[places + q..], predictions, e)
}

// Each match with the direction of its prediction, of three numbers of the line the first.
fn report<'e>(
    m: Matching,
    before: &[usize],
    work: &[usize],
    predictions: &[usize],
    e: &'e [usize],
) -> Option<&'e [usize]> {
    let rest = match m.matched {
        Ok(k) => {
            let mut rest = (before, k).held(e)?;
            for [spot, prediction] in work.as_chunks::<2>().0.iter().take(k) {
                let direction: usize = at(predictions, prediction.saturating_mul(3));
                rest = (*spot, direction).held(rest)?;
            }
            rest
        }
        Err(Refusal::ManyPairs) => 0usize.held(e)?,
        Err(_) => return None,
    };
    m.comparisons.held(rest)
}
