// The head of a record, as whole numbers: three counts, mirror, scale, radius, plane cut, limit, rounds, and the rotation.
ghost use Rattle.record.specs.Passes.{head_of};

use crate::numbers::{TOP_32, TOP_64, number_to};
use refusal::Refusal;

// The place of each number, as specs/Head.antt has it; the rotation's nine entries stand from ROTATION on.
// Stays (no plainer): the numbers of a head are read in a loop, into an array, and named by these places; fields would be read one by one.
pub(crate) const SPOTS: usize = 0;

pub(crate) const MATCHES: usize = 1;

pub(crate) const DIRECTIONS: usize = 2;

pub(crate) const MIRROR: usize = 3;

pub(crate) const SCALE: usize = 4;

pub(crate) const RADIUS: usize = 5;

pub(crate) const CUT: usize = 6;

pub(crate) const LIMIT: usize = 7;

pub(crate) const ROUNDS: usize = 8;

pub(crate) const ROTATION: usize = 9;

// How many there are.
pub(crate) const COUNT: usize = 18;

// The greatest that each may be: the mirror has 1 bit, the scale and the cut 64, and any other 32.
// Stays (no plainer): one for each number of the head, at its place, as `head_bits` of specs/Head.antt has their bits.
const TOPS: [u64; COUNT] = [
    TOP_32, TOP_32, TOP_32, 1, TOP_64, TOP_32, TOP_64, TOP_32, TOP_32, TOP_32, TOP_32, TOP_32,
    TOP_32, TOP_32, TOP_32, TOP_32, TOP_32, TOP_32,
];

// The numbers of a head, and the bytes after them.
#[derive(Drop)]
pub(crate) struct Head<'a> {
    pub numbers: [u64; COUNT],
    pub rest: &'a [u8],
}

// The head of a record, up to the first fault.
pub(crate) fn read_head(bytes: &[u8]) -> Result<Head<'_>, Refusal>
    ensures { head_of bytes.now result }
{
    let mut numbers = [0u64; COUNT];
    let mut rest = bytes;
    for (i, &top) in TOPS.iter().enumerate() {
        let n = number_to(rest, top)?;
        numbers[i] = n.value;
        rest = &rest[n.bytes..];
    }
    Ok(Head { numbers, rest })
}
