// What goes out in lent lists. 01: "Made here, a NaN has the bits 7FF8000000000000 (f32: 7FC00000)": whatever NaN a processor made on the way.
ghost use Rattle.std.specs.Prelude.{◌≡◌};
ghost use Rattle.exports.specs.Refined.{set_from};

use lists::put;
use rounding::canonical;

pub(crate) trait HandedOut: Copy {
    fn made_here(self) -> Self
        ensures { result ≡ self };
}

impl HandedOut for usize {
    fn made_here(self) -> usize {
        self
    }
}

// Stays (no plainer): this and the next are alike but for the width; what the two share is a trait that `rounding` does not hand out.
impl HandedOut for f64 {
    fn made_here(self) -> f64 {
        canonical(self)
    }
}

impl HandedOut for f32 {
    fn made_here(self) -> f32 {
        canonical(self)
    }
}

// One after another from the front of a list on, as far as it has the places.
pub(crate) fn put_all<T: HandedOut>(l: &mut [T], xs: &[T])
    ensures { l.new ≡ set_from 0 xs.now l.old }
{
    for (i, &x) in xs.iter().enumerate() {
        put(l, i, x.made_here());
    }
}
