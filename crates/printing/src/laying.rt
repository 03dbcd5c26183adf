// Bytes laid into a lent list, as far as it has places.
ghost use Rattle.std.specs.Prelude.{[], ◌∷◌};
ghost use Rattle.printing.specs.Laying.{laid, Lays, Writes};

// A lent list of bytes, and the place where the next byte goes.
// Stays (fixed memory): text of any length is laid into the list that is lent, and what is laid is counted.
#[derive(Drop)]
pub(crate) struct Writer<'a> {
    pub room: &'a mut [u8],
    pub at: usize,
}

// One byte at a place, and the place after it. A byte that finds no place is lost.
#[tactic(auto, unfolding(crate::specs::Laying::pushed, crate::specs::Laying::put))]
pub(crate) fn lay(b: u8, room: &mut [u8], at: usize) -> usize
    ensures { Lays (b ∷ []) (laid at room.old) (laid result room.new) }
{
    if at < room.len() {
        room[at] = b;
        return at + 1;
    }
    at
}

impl Writer<'_> {
    pub(crate) fn push_byte(&mut self, b: u8)
        ensures { Writes (b ∷ []) self.old self.new }
    {
        self.at = lay(b, self.room, self.at);
    }

    #[tactic(auto, using(crate::proofs::Pushes::pushed_append, std::proofs::lemmas::Grind::take_at_read), unfolding(crate::specs::Laying::pushed))]
    pub(crate) fn push_bytes(&mut self, text: &[u8])
        ensures { Writes text.now self.old self.new }
    {
        for &b in text {
            self.push_byte(b);
        }
    }
}
