// Gaussian elimination with partial pivoting, for three equations. The right side stands beside the matrix as a fourth column.
ghost use Rattle.std.specs.Prelude.{◌≡◌, ◌<◌};
ghost use Rattle.solve.specs.Solve.{beside, better, pivot_of, usable, swapped, minus_from, reduced, eliminated, if_finite, divides, substituted, solve3x3};

use crate::{Pivot, Solution};
use rounding::{abs, is_finite};

// The least magnitude of a pivot.
const TINY: f64 = 1e-30;

#[tactic(auto, unfolding(crate::specs::Solve::beside))]
fn beside(a: [[f64; 3]; 3], b: [f64; 3]) -> [[f64; 4]; 3]
    ensures { result ≡ beside a b }
{
    [
        [a[0][0], a[0][1], a[0][2], b[0]],
        [a[1][0], a[1][1], a[1][2], b[1]],
        [a[2][0], a[2][1], a[2][2], b[2]],
    ]
}

// The row i, with v in the column, takes the place of the best so far where its magnitude is larger; a NaN is never larger.
#[tactic(auto, unfolding(crate::specs::Solve::better))]
fn better(p: Pivot, i: usize, v: f64) -> Pivot
    ensures { result ≡ better p i v }
{
    let size = abs(v);
    if p.size < size {
        Pivot { row: i, size }
    } else {
        p
    }
}

// A column of the matrix by its index, which is that of the row with its diagonal entry too.
#[derive(Clone, Copy)]
struct Column {
    at: usize,
    ghost inside: { at < 3 },
}

// The largest magnitude of a column from the diagonal down.
fn pivot_of(m: [[f64; 4]; 3], col: Column) -> Pivot
    ensures { (result ≡ pivot_of m col.at) × (result.row < 3) }
{
    let at = col.at;
    let mut p = Pivot {
        row: at,
        size: abs(m[at][at]),
    };
    for i in at + 1..3 {
        p = better(p, i, m[i][at]);
    }
    p
}

#[tactic(auto, unfolding(crate::specs::Solve::usable))]
fn usable(size: f64) -> bool
    ensures { result ≡ usable size }
{
    !(size < TINY) && is_finite(size)
}

#[tactic(auto, using(std::proofs::lemmas::List::Edits::swap_is), unfolding(crate::specs::Solve::swapped))]
fn swapped(mut m: [[f64; 4]; 3], i: usize, j: usize) -> [[f64; 4]; 3]
    requires { (i < 3) × (j < 3) }
    ensures { result ≡ swapped m i j }
{
    m.swap(i, j);
    m
}

// A row less f times the pivot's, from the column on.
fn minus_from(col: usize, f: f64, mut r: [f64; 4], pivot: [f64; 4]) -> [f64; 4]
    ensures { result ≡ minus_from col f r pivot }
{
    for j in col..4 {
        r[j] -= f * pivot[j];
    }
    r
}

#[tactic(auto, unfolding(crate::specs::Solve::reduced))]
fn reduced(col: Column, pivot: [f64; 4], r: [f64; 4]) -> [f64; 4]
    ensures { result ≡ reduced col.at pivot r }
{
    let at = col.at;
    minus_from(at, r[at] / pivot[at], r, pivot)
}

// The column is cleared below the diagonal.
#[tactic(auto, unfolding(crate::specs::Solve::eliminated))]
fn eliminated(mut m: [[f64; 4]; 3], col: Column) -> [[f64; 4]; 3]
    ensures { result ≡ eliminated m col.at }
{
    let pivot = m[col.at];
    for i in col.at + 1..3 {
        m[i] = reduced(col, pivot, m[i]);
    }
    m
}

#[tactic(auto, unfolding(crate::specs::Solve::if_finite))]
fn if_finite(x: f64, y: f64, z: f64) -> Solution
    ensures { result ≡ if_finite x y z }
{
    if is_finite(x) && is_finite(y) && is_finite(z) {
        Solution::Solved(x, y, z)
    } else {
        Solution::Failed
    }
}

// Whether back substitution may divide by d.
#[tactic(auto, unfolding(crate::specs::Solve::divides))]
fn divides(d: f64) -> bool
    ensures { result ≡ divides d }
{
    !(abs(d) < TINY)
}

// Back substitution, from the last row up.
#[tactic(auto, unfolding(crate::specs::Solve::substituted))]
fn substituted(m: [[f64; 4]; 3]) -> Solution
    ensures { result ≡ substituted m }
{
    if divides(m[2][2]) && divides(m[1][1]) && divides(m[0][0]) {
        let z = m[2][3] / m[2][2];
        let y = (m[1][3] - m[1][2] * z) / m[1][1];
        let x = (m[0][3] - m[0][1] * y - m[0][2] * z) / m[0][0];
        if_finite(x, y, z)
    } else {
        Solution::Failed
    }
}

// The solution of a x = b. It fails where a column's largest magnitude is below TINY or not finite, where a diagonal entry is below TINY,
// and where an entry of the solution is not finite.
#[tactic(auto, unfolding(crate::specs::Solve::solve3x3))]
pub fn solve_3x3(a: [[f64; 3]; 3], b: [f64; 3]) -> Solution
    ensures { result ≡ solve3x3 a b }
{
    let mut m = beside(a, b);
    for at in 0..3 {
        let col = Column { at };
        let p = pivot_of(m, col);
        if !usable(p.size) {
            return Solution::Failed;
        }
        m = eliminated(swapped(m, at, p.row), col);
    }
    substituted(m)
}
