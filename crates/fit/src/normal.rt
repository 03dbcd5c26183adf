// The normal equations of the fit, summed over the matches from the left.
ghost use Rattle.std.specs.Prelude.{◌≡◌, ◌+◌, ◌^◌, ◌<◌, ◌≤◌, Bool, true, [], ◌∷◌};
ghost use Rattle.solve.specs.Vector.{at};
ghost use Rattle.fit.specs.Rows.{rows, row_of, view_of};
ghost use Rattle.fit.specs.Normal.{added, added_row, accumulated_by, accumulate_normal_equations, right_side, Brings, with_row, with_rows, no_matches, normal_matrix, solved_sums, ls_fit_once};

use crate::rows::{direction_at, view_of};
use crate::{Counted, Pose, Sums, View};
use panel::{Spot, spot_at};
use project::{Plane, Roll, predict_tanplane, tan_project_vec};
use solve::{Solution, solve_3x3};

// What a match adds to one entry is one sum, multiplied by the weight of its spot.
fn added(old: f64, weight: f64, a: f64, b: f64, c: f64, d: f64) -> f64
    ensures { result ≡ added old weight a b c d }
{
    old + weight * (a * b + c * d)
}

// The rows of a match's Jacobian, with the weight of its spot.
#[derive(Clone, Copy)]
struct Jacobian {
    weight: f64,
    xi: [f64; 3],
    eta: [f64; 3],
}

#[tactic(auto, unfolding(crate::specs::Normal::added_row))]
fn added_row(old: [f64; 3], a: f64, c: f64, j: Jacobian) -> [f64; 3]
    ensures { result ≡ added_row old j.weight a j.xi c j.eta }
{
    let x = added(old[0], j.weight, a, j.xi[0], c, j.eta[0]);
    let y = added(old[1], j.weight, a, j.xi[1], c, j.eta[1]);
    let z = added(old[2], j.weight, a, j.xi[2], c, j.eta[2]);
    [x, y, z]
}

// The same for the right side.
// Stays (no plainer): `added_row` with r for a and c has the factors of each product the other way round, and their order is the Rust's.
fn added_side(old: [f64; 3], j: Jacobian, r: Plane) -> [f64; 3]
    ensures { result ≡ added (at old 0) j.weight (at j.xi 0) r.xi (at j.eta 0) r.eta
        ∷ added (at old 1) j.weight (at j.xi 1) r.xi (at j.eta 1) r.eta
        ∷ added (at old 2) j.weight (at j.xi 2) r.xi (at j.eta 2) r.eta
        ∷ [] }
{
    let x = added(old[0], j.weight, j.xi[0], r.xi, j.eta[0], r.eta);
    let y = added(old[1], j.weight, j.xi[1], r.xi, j.eta[1], r.eta);
    let z = added(old[2], j.weight, j.xi[2], r.xi, j.eta[2], r.eta);
    [x, y, z]
}

#[tactic(auto, unfolding(crate::specs::Normal::accumulated_by))]
fn accumulated_by(s: Sums, j: Jacobian, r: Plane) -> Sums
    ensures { result ≡ accumulated_by s j.weight j.xi j.eta r.xi r.eta }
{
    let [ata0, ata1, ata2] = s.ata;
    Sums {
        ata: [
            added_row(ata0, j.xi[0], j.eta[0], j),
            added_row(ata1, j.xi[1], j.eta[1], j),
            added_row(ata2, j.xi[2], j.eta[2], j),
        ],
        atb: added_side(s.atb, j, r),
    }
}

// What a match adds to the normal equations: its spot pulls by its weight, and r is what is left from the spot's plane point to the direction's.
#[tactic(auto, unfolding(crate::specs::Normal::accumulate_normal_equations, crate::specs::Normal::xi_theta, crate::specs::Normal::eta_theta))]
pub fn accumulate_normal_equations(s: Sums, c: Spot, t: Roll, r: Plane) -> Sums
    ensures { result ≡ accumulate_normal_equations s c.px c.py c.weight t.cos_t t.sin_t t.ps r.xi r.eta }
{
    let j = Jacobian {
        weight: c.weight,
        xi: [t.ps * (-t.sin_t * c.px - t.cos_t * c.py), 1.0, 0.0],
        eta: [t.ps * (t.cos_t * c.px - t.sin_t * c.py), 0.0, 1.0],
    };
    accumulated_by(s, j, r)
}

// What is left from the spot's plane point to the direction's: the right side that a match brings to a fit.
#[tactic(auto, unfolding(crate::specs::Normal::right_side))]
fn right_side(w: &View, c: Spot, p: Plane) -> Plane
    ensures { result ≡ right_side true w.now c p.xi p.eta }
{
    let q = predict_tanplane(c.px, c.py, w.roll);
    Plane {
        xi: p.xi - q.xi,
        eta: p.eta - q.eta,
    }
}

// The sums with one match more, if its direction lies in front of the plane. `brings` makes its right side.
#[tactic(auto, unfolding(crate::specs::Normal::with_row, crate::specs::Normal::with_match))]
fn with_row<F: Fn(Spot, Plane) -> Plane>(
    brings: &F,
    w: &View,
    s: Counted,
    c: Spot,
    d: [f32; 3],
) -> Counted
    requires callable { F.IsAlwaysCallable brings.now }
    requires few { s.n < 2 ^ 63 }
    ensures counts { result.n ≤ s.n + 1 }
    ensures is { (fitting : Bool) → Brings (F.post brings.now) fitting w.now → result ≡ with_row fitting w.now s (row_of c d) }
{
    let Some(p) = tan_project_vec(d, w.basis, w.cut) else {
        return s;
    };
    let r = brings(c, p);
    Counted {
        sums: accumulate_normal_equations(s.sums, c, w.roll, r),
        n: s.n + 1,
    }
}

// The sums over all matches, with the right sides that `brings` makes.
// Stays (form of 01): spots, directions and matches are handed on as its callers are lent them: flat lists, each by itself.
#[tactic(auto, unfolding(crate::specs::Rows::rows, crate::specs::Normal::no_matches))]
fn summed<F: Fn(Spot, Plane) -> Plane>(
    brings: F,
    matches: &[usize],
    directions: &[f32],
    spots: &[f64],
    w: &View,
) -> Counted
    requires { F.IsAlwaysCallable brings }
    ensures { (fitting : Bool) → Brings (F.post brings) fitting w.now
        → result ≡ with_rows fitting w.now no_matches (rows spots.now directions.now matches.now) }
{
    let mut s = Counted::default();
    for [spot, direction] in matches.as_chunks::<2>().0 {
        let c = spot_at(spots, *spot);
        let d = direction_at(directions, *direction);
        s = with_row(&brings, w, s, c, d);
    }
    s
}

// The matrix of the normal equations over the matches in front of the plane, and how many they are.
// Stays (form of 01): spots, directions and matches are lent as flat lists, each by itself, in the Rust's order.
#[tactic(auto, unfolding(crate::specs::Normal::normal_matrix, crate::specs::Normal::right_side))]
pub fn normal_matrix(
    matches: &[usize],
    directions: &[f32],
    spots: &[f64],
    pose: Pose,
    cut: f64,
) -> Counted
    ensures { result ≡ normal_matrix (view_of pose cut)
        (rows spots.now directions.now matches.now) }
{
    let w = view_of(pose, cut);
    summed(
        |_, _| Plane { xi: 0.0, eta: 0.0 },
        matches,
        directions,
        spots,
        &w,
    )
}

// Fewer than 3 matches do not determine a solution.
#[tactic(auto, unfolding(crate::specs::Normal::solved_sums))]
fn solved_sums(c: Counted) -> Solution
    ensures { result ≡ solved_sums c }
{
    if c.n < 3 {
        return Solution::Failed;
    }
    solve_3x3(c.sums.ata, c.sums.atb)
}

// One pass of least squares: the corrections of theta, xi and eta over the matches in front of the plane.
// Stays (form of 01): spots, directions and matches are lent as flat lists, each by itself, in the Rust's order.
#[tactic(auto, unfolding(crate::specs::Normal::ls_fit_once))]
pub fn ls_fit_once(
    matches: &[usize],
    directions: &[f32],
    spots: &[f64],
    pose: Pose,
    cut: f64,
) -> Solution
    ensures { result ≡ ls_fit_once (view_of pose cut)
        (rows spots.now directions.now matches.now) }
{
    let w = view_of(pose, cut);
    solved_sums(summed(|c, p| right_side(&w, c, p), matches, directions, spots, &w))
}
