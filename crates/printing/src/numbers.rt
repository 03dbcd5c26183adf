// Whole numbers in decimal digits, floats in the hexadecimal digits of their bits.
// Stays (unproved): digits are reckoned by hand for the reason that stands at `Shown`.
ghost use Rattle.std.specs.Prelude.{◌≡◌, [], ◌<◌};
ghost use Rattle.printing.specs.Laying.{laid, Lays, Writes};
ghost use Rattle.printing.specs.Text.{decimal_from, decimal, hex_digit, hex_from, bits_text};

use crate::laying::{Writer, lay};
use rounding::to_bits;

// In upper case: 55 and ten is the letter A.
#[tactic(auto, unfolding(crate::specs::Text::hex_digit))]
fn hex_digit(d: u64) -> u8
    requires { d < 16 }
    ensures { result ≡ hex_digit d }
{
    let x = d as u8;
    if x < 10 {
        return 48 + x;
    }
    55 + x
}

// At most k + 1 digits from a place on, those of n / 10 before the last one, and the place after them.
// Stays (no plainer): here, below and in `lay` the place goes on by value, as each call answers it; the writer would be lent and written for each digit.
#[tactic(auto, using(crate::proofs::Digits::decimal_one, crate::proofs::Digits::decimal_more, crate::proofs::Pushes::pushed_append), unfolding(crate::specs::Text::decimal_from))]
fn lay_digits(n: usize, k: usize, room: &mut [u8], at: usize) -> usize
    ensures { Lays (decimal_from k n []) (laid at room.old) (laid result room.new) }
{
    let last = 48 + (n % 10) as u8;
    if k == 0 || n < 10 {
        return lay(last, room, at);
    }
    let to = lay_digits(n / 10, k - 1, room, at);
    lay(last, room, to)
}

// The k lowest digits, those of n / 16 before the last one.
#[tactic(auto, using(crate::proofs::Digits::hex_more, crate::proofs::Pushes::pushed_append), unfolding(crate::specs::Laying::pushed, crate::specs::Text::hex_from))]
fn lay_hex_digits(n: u64, k: usize, room: &mut [u8], at: usize) -> usize
    ensures { Lays (hex_from k n []) (laid at room.old) (laid result room.new) }
{
    if k == 0 {
        return at;
    }
    let to = lay_hex_digits(n / 16, k - 1, room, at);
    lay(hex_digit(n % 16), room, to)
}

impl Writer<'_> {
    // Twenty digits hold every number of 64 bits.
    #[tactic(auto, unfolding(crate::specs::Text::decimal))]
    pub(crate) fn push_decimal(&mut self, n: usize)
        ensures { Writes (decimal n) self.old self.new }
    {
        self.at = lay_digits(n, 19, self.room, self.at);
    }

    #[tactic(auto, unfolding(crate::specs::Text::bits_text))]
    pub(crate) fn push_hex(&mut self, x: f64)
        ensures { Writes (bits_text x) self.old self.new }
    {
        self.at = lay_hex_digits(to_bits(x), 16, self.room, self.at);
    }
}
