// One record in, one text out: what the program `refine` does between reading and writing.
#![tactic(auto)]

ghost use Rattle.std.specs.Prelude.{◌≡◌, [], ◌∷◌, ◌*◌, ◌<◌, min, length, take};
ghost use Rattle.record.specs.Header.{intake, numbered};
ghost use Rattle.printing.specs.Text.{answer_text, set_from};
ghost use Rattle.wcs_refine.specs.Returned.{lists, Answers, handed};
ghost use Rattle.response.specs.Response.{asked, response_to};
ghost use Rattle.response.specs.Printed.{Printed};

mod program; // program.rt: the lists of the program `refine`

use entry::Matcher;
use panel::SPOT_NUMBERS;
use printing::{print_answer, print_refusal};
pub use program::{record_room, respond_alone};
use record::{Header, read_record};
use refusal::Refusal;
use wcs_refine::{WcsRefineResult, wcs_refine};

// The places of `count` things of `each` numbers, and never more than a list has: so nothing overflows, whatever the count.
fn places(each: usize, count: usize, most: usize) -> usize
    ensures { result ≡ min (each * count) most }
{
    each.saturating_mul(count).min(most)
}

// The call that a header asks for, with the matcher that lists pairs, on the fronts of longer lists, as long as the header's counts say.
// Stays (no plainer): only `respond` and this take the lists, each once, and hand them on one by one.
fn call(
    h: Header,
    spots: &[f64],
    matches: &[usize],
    directions: &[f32],
    numbers: &mut [usize],
    floats: &mut [f64],
    distances: &mut [f64],
    indices: &mut [usize],
    result_list: &mut [usize],
) -> Result<WcsRefineResult, Refusal>
    ensures { Answers
        (asked (intake (numbered 0 h) spots.now matches.now directions.now)
        (lists numbers.old floats.old distances.old
        indices.old result_list.old))
        result
        (lists numbers.new floats.new distances.new
        indices.new result_list.new) }
{
    let s = places(SPOT_NUMBERS, h.spots, spots.len());
    let m = places(2, h.matches, matches.len());
    let d = places(3, h.directions, directions.len());
    wcs_refine(
        &spots[0..s],
        &matches[0..m],
        &directions[0..d],
        h.rotation,
        h.scale,
        h.mirror,
        h.radius,
        h.cut,
        h.limit,
        h.rounds,
        Matcher::Listing,
        numbers,
        floats,
        distances,
        indices,
        result_list,
    )
}

// How many matches an answer reports: none where it is refused.
#[tactic(auto, unfolding(wcs_refine::specs::Returned::handed, wcs_refine::specs::Returned::refused_with))]
fn reported(answer: Result<WcsRefineResult, Refusal>) -> usize
    ensures { result ≡ (handed answer).matches }
{
    answer.map_or(0, |r| r.matches)
}

// The answer with the matches that it reports, which stand at the front of the result list.
fn print_with_matches(
    answer: Result<WcsRefineResult, Refusal>,
    result_list: &[usize],
    out: &mut [u8],
) -> usize
    ensures value { result
        ≡ min (length (answer_text (handed answer) (take (2 * (handed answer).matches) result_list.now)))
        (length out.old) }
    ensures out_after { out.new
        ≡ set_from 0 (answer_text (handed answer) (take (2 * (handed answer).matches) result_list.now))
        out.old }
{
    let m = places(2, reported(answer), result_list.len());
    print_answer(answer, &result_list[0..m], out)
}

// Reads the record, makes the call that it asks for on the lent lists, and prints the answer, or the refusal, to the front of `out`. How many
// bytes of it hold text is the result.
// Stays (form of 01): the lists of a call are lent flat, each by itself.
pub fn respond(
    record: &[u8],
    spots: &mut [f64],
    matches: &mut [usize],
    directions: &mut [f32],
    numbers: &mut [usize],
    floats: &mut [f64],
    distances: &mut [f64],
    indices: &mut [usize],
    result_list: &mut [usize],
    out: &mut [u8],
) -> usize
    ensures { Printed
        (response_to «record».now spots.old matches.old directions.old
        (lists numbers.old floats.old distances.old
        indices.old result_list.old))
        result out.old out.new spots.new matches.new directions.new
        (lists numbers.new floats.new distances.new
        indices.new result_list.new) }
{
    match read_record(record, spots, matches, directions) {
        Ok(h) => {
            let r = call(
                h,
                spots,
                matches,
                directions,
                numbers,
                floats,
                distances,
                indices,
                result_list,
            );
            print_with_matches(r, result_list, out)
        }
        Err(refusal) => print_refusal(refusal.number(), out),
    }
}
