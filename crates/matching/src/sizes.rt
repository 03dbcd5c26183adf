// How many spots are matched with how many predictions.
ghost use Rattle.std.specs.Prelude.{◌≡◌, ◌+◌, ◌*◌, ◌/◌, ◌<◌, ◌^◌, min, length};

use pairs::Search;

// The lists of their coordinates fit into memory, so that no sum of a few such counts is too large for a number.
#[derive(Clone, Copy)]
pub(crate) struct Sizes {
    pub spots: usize,
    pub predictions: usize,
    ghost few: { spots + predictions < 2 ^ 60 },
}

impl Sizes {
    // Stays (no plainer): it counts what a search has, and converts nothing; `From<Search>` is an impl with a ghost member where this has one clause.
    pub(crate) fn of(s: Search<'_>) -> Self
        ensures { (result.spots ≡ s.entry.np) × (result.predictions ≡ length s.entry.predicted.now / 2) }
    {
        Sizes {
            spots: s.np,
            predictions: s.predicted.len() / 2,
        }
    }

    // The places of the marks, one for each spot and each prediction.
    pub(crate) fn marks(self) -> usize
        ensures { result ≡ self.spots + self.predictions }
    {
        self.spots + self.predictions
    }

    // The places that a call needs: the marks, and two for each match that there may be.
    pub(crate) fn places(self) -> usize
        ensures { result ≡ self.spots + self.predictions + 2 * min self.spots self.predictions }
    {
        self.marks() + 2 * self.spots.min(self.predictions)
    }
}
