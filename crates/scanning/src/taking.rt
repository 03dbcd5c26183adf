// Scan after scan: what each finds is taken, until one finds nothing.
ghost use Rattle.std.specs.Prelude.{◌≡◌, ◌+◌, ◌*◌, ◌<◌, ◌≤◌, min, length, slice_set};
ghost use Rattle.scanning.specs.Seeking.{predictions, marks, Took};

use crate::scan::{Found, GONE, closest};
use pairs::Search;

// The t-th match, from 0: its spot and its prediction are gone from here on, and it stands behind the marks and the matches before it.
fn take(s: Search<'_>, work: &mut [usize], t: usize, m: Found)
    requires { (m.spot < s.np) × (m.prediction < predictions s) × (marks s + 2 * t + 1 < length work.old) }
    ensures { work.new
        ≡ slice_set (slice_set (slice_set (slice_set work.old m.spot 1) (s.entry.np + m.prediction) 1)
        (marks s.entry + 2 * t) m.spot) (marks s.entry + 2 * t + 1) m.prediction }
{
    let at = s.np + s.predicted.len() / 2 + 2 * t;
    work[m.spot] = GONE;
    work[s.np + m.prediction] = GONE;
    work[at] = m.spot;
    work[at + 1] = m.prediction;
}

// The closest pair is taken, again and again, until there is none. The marks, which are cleared first, are left; how many matches stand behind them is
// answered.
pub(crate) fn take_closest(s: Search<'_>, work: &mut [usize]) -> usize
    requires { marks s + 2 * min s.np (predictions s) ≤ length work.old }
    ensures { Took s.entry work.old result work.new }
{
    lists::clear(work, s.np + s.predicted.len() / 2);
    let mut t = 0;
    while let Some(m) = closest(s, work) {
        take(s, work, t, m);
        t += 1;
    }
    t
}
