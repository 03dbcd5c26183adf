// Files of entries, each with what is expected of it.
ghost use Rattle.std.specs.Prelude.{◌≡◌, ◌+◌, ◌-◌, ◌^◌, cond, min, Some};
ghost use Rattle.streams.specs.Text.{tally_text, told_text};

use crate::Unread;
use std::fmt;

// How many entries came out as expected, and how many did not.
#[derive(Clone, Copy, Default)]
pub struct Tally {
    pub same: u64,
    pub other: u64,
}

impl Tally {
    // One entry more. The counts stop at the greatest number.
    pub fn count(&mut self, as_expected: bool)
        ensures same { self.new.same ≡ cond as_expected (min (self.old.same + 1) (2 ^ 64 - 1)) self.old.same }
        ensures other { self.new.other ≡ cond as_expected self.old.other (min (self.old.other + 1) (2 ^ 64 - 1)) }
    {
        if as_expected {
            self.same = self.same.saturating_add(1);
        } else {
            self.other = self.other.saturating_add(1);
        }
    }
}

impl fmt::Display for Tally {
    ghost output = { λ t. Some (tally_text t) };

    fn fmt<W: fmt::Write>(&self, f: &mut fmt::Formatter<W>) -> fmt::Result {
        write!(f, "{} as expected, {} not", self.same, self.other)
    }
}

// What became of a file: the tally of its entries, or why it is not to be had.
#[derive(Clone, Copy)]
pub struct Told(pub Result<Tally, Unread>);

impl fmt::Display for Told {
    ghost output = { λ t. Some (told_text t.0) };

    #[tactic(auto, unfolding(crate::specs::Text::told_text))]
    fn fmt<W: fmt::Write>(&self, f: &mut fmt::Formatter<W>) -> fmt::Result {
        match self.0 {
            Ok(tally) => write!(f, "{tally}"),
            Err(why) => write!(f, "{why}"),
        }
    }
}
