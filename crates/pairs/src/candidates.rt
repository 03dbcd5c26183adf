// The candidate lists.
ghost use Rattle.std.specs.Prelude.{◌≡◌, ◌≤◌};
ghost use Rattle.pairs.specs.Candidates.{capacity};

// Pairs stand in them, a distance and two indices each: n were found, of `cap` that they hold, and behind those there is room for as many.
// Stays (form of 01): the two are lent as flat lists side by side, of distances and of indices, and not as one of pairs; so a pair is copied as three
// numbers, and how many there are and may be is counted beside the lists.
#[derive(Drop)]
pub struct Candidates<'a> {
    pub distances: &'a mut [f64],
    pub indices: &'a mut [usize],
    pub cap: usize,
    pub n: usize,
    ghost fits: { cap ≡ capacity distances.now indices.now },
    ghost few: { n ≤ cap },
}

impl<'a> Candidates<'a> {
    pub fn new(distances: &'a mut [f64], indices: &'a mut [usize]) -> Self
        ensures { (result.distances ≡ distances.entry)
            × (result.indices ≡ indices.entry)
            × (result.n ≡ 0) }
    {
        let cap = (distances.len() / 2).min(indices.len() / 4);
        Candidates {
            distances,
            indices,
            cap,
            n: 0,
        }
    }
}
