// What the numbers of a record stand for, and the header by its head.
ghost use Rattle.std.specs.Prelude.{◌≡◌, ℕ, ◌+◌, ◌^◌, ◌≤◌, ◌<◌};
ghost use Rattle.std.proofs.Common.{rules};
ghost use Rattle.std.specs.Float.{binary32, binary64};
ghost use Rattle.std.specs.Float.Ieee.{of_bits};
ghost use Rattle.record.specs.Head.{head_rotation, head_size, head_bits};
ghost use Rattle.record.specs.Header.{rotation_row};
ghost use Rattle.record.specs.Passes.{Fit, header_from};

use crate::Header;
use crate::heads::{
    COUNT, CUT, DIRECTIONS, LIMIT, MATCHES, MIRROR, RADIUS, ROTATION, ROUNDS, SCALE, SPOTS,
};
use rounding::{canonical, from_bits};

// What a number of a record may stand for: a float by its bits, or an index. Every NaN pattern becomes the same one.
pub(crate) trait Field: Copy {
    // How many bits such a number has,
    ghost bits: { ℕ };

    // and what each stands for.
    ghost of_number: { ℕ → Self };

    fn from_number(n: u64) -> Self
        requires { n < 2 ^ bits }
        ensures { result ≡ of_number n };

    ghost narrow: { bits ≤ 64 };
}

// Stays (no plainer): this and the next are alike but for the width; what the two share is a trait that `rounding` does not hand out.
impl Field for f64 {
    ghost bits = { 64 };

    ghost of_number = { of_bits binary64 };

    fn from_number(n: u64) -> f64 {
        canonical(from_bits(n))
    }

    ghost narrow = { Prim.search rules };
}

impl Field for f32 {
    ghost bits = { 32 };

    ghost of_number = { of_bits binary32 };

    fn from_number(n: u64) -> f32 {
        canonical(from_bits(n as u32))
    }

    ghost narrow = { Prim.search rules };
}

impl Field for usize {
    ghost bits = { 32 };

    ghost of_number = { λ n. n };

    fn from_number(n: u64) -> usize {
        n as usize
    }

    ghost narrow = { Prim.search rules };
}

// A row of the rotation, whose first entry is at this place of a head whose numbers are known to fit.
fn row(h: &[u64; COUNT], at: usize) -> [f32; 3]
    requires { Fit head_bits h.now × (head_rotation ≤ at) × (at + 2 < head_size) }
    ensures { result ≡ rotation_row h.now at (at + 1) (at + 2) }
{
    [
        f32::from_number(h[at]),
        f32::from_number(h[at + 1]),
        f32::from_number(h[at + 2]),
    ]
}

// The header of a record by its head, whose numbers are known to fit.
pub(crate) fn accepted(h: &[u64; COUNT]) -> Header
    requires { Fit head_bits h.now }
    ensures { result ≡ header_from h.now }
{
    Header {
        spots: h[SPOTS] as usize,
        matches: h[MATCHES] as usize,
        directions: h[DIRECTIONS] as usize,
        mirror: h[MIRROR] == 1,
        scale: f64::from_number(h[SCALE]),
        radius: f32::from_number(h[RADIUS]),
        cut: f64::from_number(h[CUT]),
        limit: h[LIMIT] as usize,
        rounds: h[ROUNDS] as usize,
        rotation: [row(h, ROTATION), row(h, ROTATION + 3), row(h, ROTATION + 6)],
    }
}
