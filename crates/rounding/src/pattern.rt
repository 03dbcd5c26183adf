// Bit patterns of floats, and the one rounding step of root and narrowing.
ghost use Rattle.std.specs.Prelude.{◌≡◌, ◌-◌, ◌/◌, ◌%◌, ◌^◌, ◌<◌, min};
ghost use Rattle.std.specs.Float.Ieee.Nearest.{closest};
ghost use Rattle.rounding.specs.Pattern.{digits_of};

// n / 2^d to the nearest whole number, a tie to the even one: just under a half is added, and one more where the number below is odd.
pub(crate) fn nearest(n: u64, d: u64) -> u64
    requires { (0 < d) × (d < 64) × (n < 2 ^ 63) }
    ensures { result ≡ closest n (2 ^ d) }
{
    let q = n >> d;
    let half = 1u64 << (d - 1);
    (n + (half - 1) + (q & 1)) >> d
}

// A bit pattern with its sign's bit clear, taken apart: the number is digits * 2^place of the format's smallest values.
#[derive(Drop)]
pub(crate) struct Parts {
    pub(crate) digits: u64,
    pub(crate) place: u64,
}

// Taken apart in the format with h + 1 digits. A field of 0 has no leading digit, and counts as a field of 1.
pub(crate) fn take_apart(b: u64, h: u64) -> Parts
    requires { h < 53 }
    ensures { (result.digits ≡ digits_of (2 ^ h) (b / 2 ^ h) (b % 2 ^ h)) × (result.place ≡ b / 2 ^ h - 1) }
{
    let lead = 1u64 << h;
    let field = b >> h;
    let rest = b & (lead - 1);
    if field == 0 {
        Parts {
            digits: rest,
            place: 0,
        }
    } else {
        Parts {
            digits: lead + rest,
            place: field - 1,
        }
    }
}

// 1 where something is left, and 0 where nothing is.
pub(crate) fn some(x: u64) -> u64
    ensures { result ≡ min x 1 }
{
    u64::from(x != 0)
}
