// A spot of a flat list. Each number past the list's end reads as NaN, so that every index has a spot.
ghost use Rattle.std.specs.Prelude.{◌≡◌};
ghost use Rattle.panel.specs.Spots.{spot_at};

use crate::Spot;
use crate::threes::three_at;

// How many numbers a spot has in a list and in a record: x, y and weight.
pub const SPOT_NUMBERS: usize = 3;

// The spot i of a flat list.
pub fn spot_at(spots: &[f64], i: usize) -> Spot
    ensures { result ≡ spot_at spots.now i }
{
    let [px, py, weight] = three_at(spots, i, f64::NAN);
    Spot { px, py, weight }
}
