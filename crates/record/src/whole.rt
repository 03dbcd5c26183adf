// The first pass over a record, which writes nothing: is it lawful, and where are its lists?
ghost use Rattle.record.specs.Passes.{FoundIn};

use crate::heads::{COUNT, DIRECTIONS, MATCHES, SPOTS, read_head};
use crate::numbers::{TOP_32, TOP_64};
use crate::runs::skip;
use panel::SPOT_NUMBERS;
use refusal::Refusal;

const MOST_BYTES: usize = 65536;

// The head, and the bytes that begin with spots, matches and directions.
#[derive(Drop)]
pub(crate) struct Found<'a> {
    pub numbers: [u64; COUNT],
    pub spots: &'a [u8],
    pub matches: &'a [u8],
    pub directions: &'a [u8],
}

// Refusals 1 to 4: of 2 and 3 the first fault along the record counts.
pub(crate) fn look_over(bytes: &[u8]) -> Result<Found<'_>, Refusal>
    ensures { FoundIn bytes.now result }
{
    if MOST_BYTES < bytes.len() {
        return Err(Refusal::LongRecord);
    }
    let h = read_head(bytes)?;
    let numbers = h.numbers;
    let matches = skip(h.rest, SPOT_NUMBERS * numbers[SPOTS] as usize, TOP_64)?;
    let directions = skip(matches, 2 * numbers[MATCHES] as usize, TOP_32)?;
    let after = skip(directions, 3 * numbers[DIRECTIONS] as usize, TOP_32)?;
    if 0 < after.len() {
        return Err(Refusal::BytesAfter);
    }
    Ok(Found {
        numbers,
        spots: h.rest,
        matches,
        directions,
    })
}
