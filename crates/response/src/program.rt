// What the program `refine` holds: its lists, and the room that it reads into.
ghost use Rattle.std.specs.Prelude.{◌≡◌, min, length, replicate};
ghost use Rattle.printing.specs.Text.{set_from};
ghost use Rattle.response.specs.Program.{program_text, room_bytes};

use crate::respond;
use panel::SPOT_NUMBERS;

// What the program `refine` prints of a record, with the lists that it holds.
pub fn respond_alone(record: &[u8], out: &mut [u8]) -> usize
    ensures { (result ≡ min (length (program_text «record».now)) (length out.old))
        × (out.new ≡ set_from 0 (program_text «record».now) out.old) }
{
    let mut spots = [0.0f64; SPOT_NUMBERS * 64];
    let mut matches = [0usize; 128];
    let mut directions = [0.0f32; 768];
    let mut numbers = [0usize; 6144];
    let mut floats = [0.0f64; 6144];
    let mut distances = [0.0f64; 4096];
    let mut indices = [0usize; 8192];
    let mut result = [0usize; 128];
    respond(
        record,
        &mut spots,
        &mut matches,
        &mut directions,
        &mut numbers,
        &mut floats,
        &mut distances,
        &mut indices,
        &mut result,
        out,
    )
}

// The room that the program reads a record into: one byte more than a record may have, so that a longer input is seen to be too long.
pub fn record_room() -> [u8; 65537]
    ensures { result ≡ replicate room_bytes 0 }
{
    [0u8; 65537]
}
