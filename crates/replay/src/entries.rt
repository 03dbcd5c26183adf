// The entries of a file.
ghost use Rattle.std.specs.Prelude.{◌≡◌, ◌+◌, ◌-◌, ◌<◌, ◌≤◌, length};

use crate::trial;
use streams::Tally;

// A length in four bytes, low byte first, and so many bytes: those, and what follows them. A file that ends before has no more of either.
fn part(bytes: &[u8]) -> (&[u8], &[u8])
    ensures whole { length result.0.now + length result.1.now ≡ length bytes.now - 4 }
    ensures on { (length result.1.now ≤ length bytes.now)
        × (0 < length bytes.now → length result.1.now < length bytes.now) }
{
    match bytes.split_first_chunk::<4>() {
        Some((count, rest)) => rest.split_at((u32::from_le_bytes(*count) as usize).min(rest.len())),
        None => {
            let end = &bytes[bytes.len()..];
            (end, end)
        }
    }
}

pub(crate) fn tally(rt: &HostRuntime, file: &[u8]) -> Tally {
    let mut t = Tally::default();
    let mut rest = file;
    while !rest.is_empty() {
        let (record, after) = part(rest);
        let (expected, after) = part(after);
        t.count(trial::run(rt, record, expected));
        rest = after;
    }
    t
}
