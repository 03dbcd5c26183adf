// The exposure record: read from a lent list of bytes into lent spot, match and direction lists.
#![tactic(auto)]

ghost use Rattle.std.specs.Prelude.{◌≡◌, drop, min};
ghost use Rattle.record.specs.Number.{number};
ghost use Rattle.record.specs.Header.{handed, intake, read_record};

use crate::heads::{DIRECTIONS, MATCHES, SPOTS};
use crate::reports::accepted;
use crate::runs::fill;
use crate::whole::look_over;
use panel::SPOT_NUMBERS;
use refusal::Refusal;

mod heads; // heads.rt: the head, that is the numbers before the lists
mod runs; // runs.rt: runs of numbers, gone over and written to lists
mod numbers; // numbers.rt: one whole number
mod reports; // reports.rt: what the numbers stand for, and the header that is handed back
mod whole; // whole.rt: the first pass over a record

// A whole number and how many bytes it took.
#[derive(Clone, Copy, Debug, PartialEq, Eq)]
pub struct Number {
    pub value: u64,
    pub bytes: usize,
}

// What a record says beside its three lists: counts, choices, numbers, and the rotation by rows.
#[derive(Clone, Copy, Default)]
pub struct Header {
    pub spots: usize,
    pub matches: usize,
    pub directions: usize,
    pub mirror: bool,
    pub scale: f64,
    pub radius: f32,
    pub cut: f64,
    pub limit: usize,
    pub rounds: usize,
    pub rotation: [[f32; 3]; 3],
}

// A number of so many bits from a place on: at most 64, and 64 where more are asked.
pub fn number_at(bytes: &[u8], at: usize, bits: u32) -> Result<Number, Refusal>
    ensures { result ≡ number (min bits 64) (drop at bytes.now) }
{
    let start = at.min(bytes.len());
    numbers::number_to(&bytes[start..], numbers::greatest(bits))
}

// Reads a record: a first pass finds the refusal or the bytes of the lists, a second writes. The lists take its spots, matches and directions, and stay as they came where it is refused.
// Stays (form of 01): the lists of a call are lent flat, each by itself.
pub fn read_record(
    bytes: &[u8],
    spots: &mut [f64],
    matches: &mut [usize],
    directions: &mut [f32],
) -> Result<Header, Refusal>
    ensures { intake (handed result) spots.new matches.new directions.new
        ≡ read_record bytes.now spots.old matches.old directions.old }
{
    let f = look_over(bytes)?;
    let n = SPOT_NUMBERS * f.numbers[SPOTS] as usize;
    let m = 2 * f.numbers[MATCHES] as usize;
    let d = 3 * f.numbers[DIRECTIONS] as usize;
    if spots.len() < n || matches.len() < m || directions.len() < d {
        return Err(Refusal::ShortList);
    }
    fill(f.spots, &mut spots[0..n]);
    fill(f.matches, &mut matches[0..m]);
    fill(f.directions, &mut directions[0..d]);
    Ok(accepted(&f.numbers))
}
