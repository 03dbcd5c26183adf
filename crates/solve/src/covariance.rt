// The covariance of a fit, from its normal matrix.
ghost use Rattle.std.specs.Prelude.{◌≡◌, [], ◌∷◌};
ghost use Rattle.rounding.specs.Arith.{zero64, one64};
ghost use Rattle.solve.specs.Solve.{solve3x3};
ghost use Rattle.solve.specs.Vector.{at};
ghost use Rattle.solve.specs.Covariance.{unconstrained, symmetric, from_columns, covariance_from_normal};

use crate::Solution;
use crate::solve::solve_3x3;

// Infinity on the diagonal: nothing is known.
fn unconstrained() -> [[f64; 3]; 3]
    ensures { result ≡ unconstrained }
{
    let inf = 1.0 / 0.0;
    [[inf, 0.0, 0.0], [0.0, inf, 0.0], [0.0, 0.0, inf]]
}

// The mean of the inverse and its transpose, times s, from the inverse's columns: the two differ by rounding alone.
#[tactic(auto, unfolding(crate::specs::Covariance::symmetric))]
fn symmetric(s: f64, a: [f64; 3], b: [f64; 3], c: [f64; 3]) -> [[f64; 3]; 3]
    ensures { result ≡ symmetric s (at a 0) (at a 1) (at a 2) (at b 0) (at b 1) (at b 2) (at c 0) (at c 1) (at c 2) }
{
    let h = s * 0.5;
    [
        [h * (a[0] + a[0]), h * (b[0] + a[1]), h * (c[0] + a[2])],
        [h * (a[1] + b[0]), h * (b[1] + b[1]), h * (c[1] + b[2])],
        [h * (a[2] + c[0]), h * (b[2] + c[1]), h * (c[2] + c[2])],
    ]
}

// s times the inverse of a, made symmetric: its columns solve a x = e for each unit vector e.
#[tactic(auto, unfolding(crate::specs::Covariance::from_columns))]
fn scaled_inverse(a: [[f64; 3]; 3], s: f64) -> [[f64; 3]; 3]
    ensures { result ≡ from_columns s (solve3x3 a (one64 ∷ zero64 ∷ zero64 ∷ [])) (solve3x3 a (zero64 ∷ one64 ∷ zero64 ∷ []))
        (solve3x3 a (zero64 ∷ zero64 ∷ one64 ∷ [])) }
{
    let Solution::Solved(a0, a1, a2) = solve_3x3(a, [1.0, 0.0, 0.0]) else {
        return unconstrained();
    };
    let Solution::Solved(b0, b1, b2) = solve_3x3(a, [0.0, 1.0, 0.0]) else {
        return unconstrained();
    };
    let Solution::Solved(c0, c1, c2) = solve_3x3(a, [0.0, 0.0, 1.0]) else {
        return unconstrained();
    };
    symmetric(s, [a0, a1, a2], [b0, b1, b2], [c0, c1, c2])
}

// The covariance of theta, xi and eta, over n_matches spots with two residuals each, whose squares sum to sum_r2.
#[tactic(auto, unfolding(crate::specs::Covariance::covariance_from_normal))]
pub fn covariance_from_normal(ata: [[f64; 3]; 3], sum_r2: f64, n_matches: usize) -> [[f64; 3]; 3]
    ensures { result ≡ covariance_from_normal ata sum_r2 n_matches }
{
    if n_matches < 2 || 0x4000_0000_0000_0000 <= n_matches {
        return unconstrained();
    }
    let dof = 2 * n_matches - 3;
    scaled_inverse(ata, sum_r2 / std::num::nearest_u64_to_f64(dof as u64))
}
