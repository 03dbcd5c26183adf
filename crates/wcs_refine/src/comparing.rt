// Whether new matches are the present ones, in whatever order. A table with a place for each spot spares sorting them.
ghost use Rattle.std.specs.Prelude.{◌≡◌, ◌+◌, ◌*◌, ◌≤◌, length, if◌then◌else◌, slice_set};
ghost use Rattle.wcs_refine.specs.Comparing.{link_of, tells, Few, Laid, Comparable, Compared};

// Where the table stands: n places from `base` on; and the t new matches: from place `start` on. A place of the table holds the number of the match
// that has its spot, from 1 on.
// Stays (fixed memory): the table is a part of a lent list of whole numbers, and 0 in it stands for no number.
#[derive(Clone, Copy)]
pub(crate) struct Table {
    pub base: usize,
    pub n: usize,
    pub start: usize,
    pub t: usize,
}

// Whether the table has a number for the spot, and the match of that number has the direction: then the number goes.
fn strike(numbers: &mut [usize], at: Table, spot: usize, direction: usize) -> bool
    requires { (at.base + at.n ≤ at.start) × (at.start + 2 * at.t ≤ length numbers.old) × Few at.base at.n at.t numbers.old }
    ensures { (result ≡ tells at.base at.n at.start numbers.old numbers.old (link_of spot direction))
        × (numbers.new ≡ (if result then slice_set numbers.old (at.base + spot) 0 else numbers.old)) }
{
    if at.n <= spot {
        return false;
    }
    let k = numbers[at.base + spot];
    if k == 0 {
        return false;
    }
    if direction != numbers[at.start + 2 * (k - 1) + 1] {
        return false;
    }
    numbers[at.base + spot] = 0;
    true
}

// The new matches against the `used` present ones at the front. The table is zero when this begins: each new match is numbered at its spot, and each
// present one strikes a number out.
pub(crate) fn same_matches(numbers: &mut [usize], at: Table, used: usize) -> bool
    requires { Comparable at.base at.n at.start at.t used numbers.old }
    ensures { Compared at.base at.n at.start at.t used numbers.new numbers.old result }
{
    if at.t != used {
        return false;
    }
    for i in 0..at.t {
        let spot = numbers[at.start + 2 * i];
        numbers[at.base + spot] = i + 1;
    }
    for j in 0..at.t {
        let spot = numbers[2 * j];
        let direction = numbers[2 * j + 1];
        if !strike(numbers, at, spot, direction) {
            return false;
        }
    }
    true
}
