// The functions of the crate `fit` over lists, by name. The numbers are a pose and the plane cut, then spots, matches and directions, each after its
// count.
use crate::answer::Answer;
use crate::line::Asked;
use crate::word::{count_at, list};
use fit::Pose;
use panel::SPOT_NUMBERS;
use residuals::NO_RESIDUAL;

pub(crate) fn answer(asked: Asked<'_>) -> Option<&[usize]> {
    let Asked { name, a, e } = asked;
    let [theta, ra, dec, scale, cut]: [f64; 5] = list(a, 0);
    let pose = Pose {
        theta,
        ra,
        dec,
        scale,
    };
    let s = SPOT_NUMBERS * count_at(a, 5);
    let from = 7 + s;
    let to = from + 2 * count_at(a, 6 + s);
    let d = 3 * count_at(a, to);
    let spots: [f64; 96] = list(a, 6);
    let spots = &spots[..s];
    let matches = a.get(from..to)?;
    let directions: [f32; 96] = list(a, to + 1);
    let directions = &directions[..d];
    match name {
        "ls_fit_once" => fit::ls_fit_once(matches, directions, spots, pose, cut).held(e),
        "normal_matrix" => fit::normal_matrix(matches, directions, spots, pose, cut).held(e),
        "compute_residuals" => {
            let mut residuals = [NO_RESIDUAL; 32];
            let n = residuals::compute_residuals(
                matches,
                directions,
                spots,
                pose,
                cut,
                &mut residuals,
            );
            held_residuals(&residuals, n.held(e)?)
        }
        _ => None,
    }
}

// Each residual after the number of its match; where the mark stands there is none.
fn held_residuals<'e>(residuals: &[f64], e: &'e [usize]) -> Option<&'e [usize]> {
    let mut rest = e;
    for (i, x) in residuals.iter().enumerate() {
        if *x != NO_RESIDUAL {
            rest = (i, *x).held(rest)?;
        }
    }
    Some(rest)
}
