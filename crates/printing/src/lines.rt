// Lines: a word, numbers with a space before each, and the end of the line.
ghost use Rattle.std.specs.Prelude.{List, ℕ};
ghost use Rattle.printing.specs.Laying.{Writes};
ghost use Rattle.printing.specs.Text.{decimal, bits_text, spaced, line, match_lines};

use crate::laying::Writer;

const SPACE: u8 = 32;

const NEWLINE: u8 = 10;

// What stands in a line after its word.
// Stays (unproved): by `write!`, with `{}` and `{:016X}`, it is as quick, but the library says what is written only where `write!` answers `Ok`, and
// not that it does where the writer never fails. So the text of an answer could not be promised.
pub(crate) trait Shown: Copy {
    ghost text: { Self → List ℕ };

    fn push(self, w: &mut Writer<'_>)
        ensures { Writes (text self) w.old w.new };
}

// Counts and indices in decimal,
impl Shown for usize {
    ghost text = { decimal };

    fn push(self, w: &mut Writer<'_>) {
        w.push_decimal(self);
    }
}

// floats by their bits.
impl Shown for f64 {
    ghost text = { bits_text };

    fn push(self, w: &mut Writer<'_>) {
        w.push_hex(self);
    }
}

impl Writer<'_> {
    #[tactic(auto, using(crate::proofs::Pushes::pushed_append, crate::proofs::LineText::spaced_push, std::proofs::lemmas::Grind::take_at_read), unfolding(crate::specs::Laying::pushed, crate::specs::Text::spaced))]
    fn push_all<T: Shown>(&mut self, xs: &[T])
        ensures { Writes (spaced T.text xs.now) self.old self.new }
    {
        for &x in xs {
            self.push_byte(SPACE);
            x.push(self);
        }
    }

    #[tactic(auto, using(crate::proofs::Pushes::pushed_append))]
    pub(crate) fn push_line<T: Shown>(&mut self, word: &[u8], xs: &[T])
        ensures { Writes (line word.now (spaced T.text xs.now)) self.old self.new }
    {
        self.push_bytes(word);
        self.push_all(xs);
        self.push_byte(NEWLINE);
    }

    // A line for each match.
    #[tactic(auto, using(crate::proofs::Pushes::pushed_append, crate::proofs::LineText::pairs_push, crate::proofs::LineText::pairs_all, std::proofs::lemmas::Grind::common_steps), unfolding(crate::specs::Laying::pushed, crate::proofs::LineText::pair_lines))]
    pub(crate) fn match_lines(&mut self, ms: &[usize])
        ensures { Writes (match_lines ms.now) self.old self.new }
    {
        for m in ms.as_chunks::<2>().0 {
            self.push_line(b"m", m);
        }
    }
}
