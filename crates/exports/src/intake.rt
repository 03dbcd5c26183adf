// The record reader for C and Rust. A list passes as a pointer and a length; the header's values go to three lists.
ghost use Rattle.std.specs.Prelude.{◌≡◌};
ghost use Rattle.refusal.specs.Number.{number_given};
ghost use Rattle.record.specs.Header.{numbered, handed, read_record};
ghost use Rattle.exports.specs.Refined.{set_from};
ghost use Rattle.exports.specs.Taken.{choices, measures, entries, TakenTo};

use crate::places::put_all;
use record::Header;
use refusal::{Refusal, number_given};

// Beside the number of a refusal all is zero.
// Stays (no plainer): one function for this and that of call.rt would need a trait to say what `numbered` and `handed` are of each, and be longer.
#[tactic(auto, unfolding(record::specs::Header::handed))]
fn beside_the_number(answer: Result<Header, Refusal>) -> Header
    ensures { numbered (number_given answer) result ≡ handed answer }
{
    answer.unwrap_or_default()
}

// The counts of spots, matches and directions, the mirror as 1 or 0, the matching limit, the rounds.
fn put_choices(l: &mut [usize], h: &Header)
    ensures { l.new ≡ set_from 0 (choices (numbered 0 h.now)) l.old }
{
    let mirror = usize::from(h.mirror);
    put_all(
        l,
        &[h.spots, h.matches, h.directions, mirror, h.limit, h.rounds],
    );
}

// The scale, the radius as an f64 has it, and the plane cut.
fn put_measures(l: &mut [f64], h: &Header)
    ensures { l.new ≡ set_from 0 (measures (numbered 0 h.now)) l.old }
{
    let radius = rounding::widen(h.radius);
    put_all(l, &[h.scale, radius, h.cut]);
}

fn put_rotation(l: &mut [f32], h: &Header)
    ensures { l.new ≡ set_from 0 (entries (numbered 0 h.now)) l.old }
{
    let [[a, b, c], [d, e, f], [g, i, j]] = h.rotation;
    put_all(l, &[a, b, c, d, e, f, g, i, j]);
}

// The number of the refusal, or 0. The spots (x, y, weight), matches and directions of the record go to the front of their lists. `choices` takes
// six numbers, `measures` three and `rotation` nine, or as many as the lists have places.
// Stays (C interface): a list is a pointer and a length each.
#[unsafe(no_mangle)]
pub extern "C" fn raqembu_read_record(
    bytes: &[u8],
    spots: &mut [f64],
    matches: &mut [usize],
    directions: &mut [f32],
    choices: &mut [usize],
    measures: &mut [f64],
    rotation: &mut [f32],
) -> usize
    ensures { TakenTo
        (read_record bytes.now spots.old matches.old directions.old)
        result spots.new matches.new directions.new
        choices.old choices.new measures.old measures.new
        rotation.old rotation.new }
{
    let answer = record::read_record(bytes, spots, matches, directions);
    let h = beside_the_number(answer);
    put_choices(choices, &h);
    put_measures(measures, &h);
    put_rotation(rotation, &h);
    number_given(answer)
}
