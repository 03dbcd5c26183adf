// The root of a whole number: its whole part, and what the square of that leaves.
ghost use Rattle.std.specs.Prelude.{◌≡◌, ◌+◌, ◌*◌, ◌/◌, ◌^◌, ◌<◌, ◌≤◌, ◌⊎◌};
ghost use Rattle.rounding.specs.Root.{whole_root};

// By what is left the root is the greatest: the square of the next one is greater by more than that.
#[derive(Drop)]
pub struct Rooted {
    pub root: u64,
    pub rest: u64,
    ghost greatest: { rest ≤ 2 * root },
}

// A word with its top digit or the next set: so far have the digits of the number that a root is asked of been moved up.
#[derive(Clone, Copy)]
pub struct Topped {
    pub word: u64,
    ghost high: { 2 ^ 62 ≤ word },
}

// 1 where a is below b, and 0 where it is not.
fn below(a: u64, b: u64) -> u64
    ensures { ((result ≡ 1) × (a < b)) ⊎ ((result ≡ 0) × (b ≤ a)) }
{
    u64::from(a < b)
}

// The whole root of the top 16 digits of a, or one more: a cubic in the top 9 digits comes as near at each of their values.
fn first_root(a: Topped) -> u64
    ensures { (whole_root (a.word / 2 ^ 48) ≤ result) × (result ≤ whole_root (a.word / 2 ^ 48) + 1) }
{
    let y = 511 - (a.word >> 55);
    (0x2018_0000 - y * (y * y + 0x8_7000)) >> 21
}

// Stays (no plainer): that a number is a whole root or one more is said of three numbers below, of another one each time, and stored in none.
// The whole root of m, or one more, from one of m / 4^b, s: a step of Newton's goes half of the way from s * 2^b to what m is divided by that.
fn nearer(s: u64, b: u64, m: u64) -> u64
    requires { (whole_root (m / 4 ^ b) ≤ s) × (s ≤ whole_root (m / 4 ^ b) + 1)
        × (2 ^ b ≤ 2 * s) × (s ≤ 2 ^ 16) × (2 ≤ b) × (b ≤ 16) }
    ensures { (whole_root m ≤ result) × (result ≤ whole_root m + 1) }
{
    (s << (b - 1)) + (m >> (b + 1)) / s
}

// The whole root of m, and what its square leaves, from the root or one more.
fn settled(near: u64, m: u64) -> Rooted
    requires { (whole_root m ≤ near) × (near ≤ whole_root m + 1) }
    ensures { result.root * result.root + result.rest ≡ m }
{
    let s = near - (near >> 32); // a root is below 2^32, and then a square fits
    let square = s * s;
    let t = below(m, square);
    Rooted {
        root: s - t,
        rest: m - (square + t - 2 * s * t),
    }
}

// From the root of a number to that of the number times 4^22: one division gives 22 digits of the root, at most one too many, which is rare.
fn longer(w: Rooted) -> Rooted
    requires { (2 ^ 22 ≤ 2 * w.root) × (w.root < 2 ^ 32) }
    ensures { result.root * result.root + result.rest ≡ (w.root * w.root + w.rest) * 4 ^ 22 }
{
    let t = w.rest << 22;
    let d = 2 * w.root;
    let x = t / d;
    let u = t % d;
    let root = (w.root << 22) + x;
    let have = u << 22;
    let square = x * x;
    if square <= have {
        return Rooted {
            root,
            rest: have - square,
        };
    }
    Rooted {
        root: root - 1,
        rest: have + 2 * root - 1 - square,
    }
}

// The whole root of the top 32 digits of a, or one more: from 8 digits each division doubles them, or nearly.
fn half(a: Topped) -> u64
    ensures { (whole_root (a.word / 2 ^ 32) ≤ result) × (result ≤ whole_root (a.word / 2 ^ 32) + 1) }
{
    nearer(first_root(a), 8, a.word >> 32)
}

// The root of a * 4^25 / 2^64.
pub(crate) fn single(a: Topped) -> Rooted
    ensures { result.root * result.root + result.rest ≡ a.word * 4 ^ 25 / 2 ^ 64 }
{
    let m = a.word >> 14;
    settled(nearer(half(a), 9, m), m)
}

// The same of a * 4^54 / 2^64.
pub(crate) fn double(a: Topped) -> Rooted
    ensures { result.root * result.root + result.rest ≡ a.word * 4 ^ 54 / 2 ^ 64 }
{
    let m = a.word;
    longer(settled(nearer(half(a), 16, m), m))
}
