// The functions of the crates `project`, `solve` and `fit` that give matrices, and the solver, by name.
use crate::answer::Answer;
use crate::geometry::sky;
use crate::line::Asked;
use crate::word::{at, list};
use fit::Sums;
use panel::Spot;
use project::{Plane, Roll, WcsRotation};

pub(crate) fn answer(asked: Asked<'_>) -> Option<&[usize]> {
    let Asked { name, a, e } = asked;
    let x: [f64; 20] = list(a, 0);
    match name {
        "tan_basis" => project::tan_basis(sky(x[0], x[1])).held(e),
        "camera_rows_f64" => project::camera_rows_f64(x[0], sky(x[1], x[2])).held(e),
        "covariance_from_normal" => {
            solve::covariance_from_normal(matrix_of(x), x[9], at(a, 10)).held(e)
        }
        "solve_3x3" => solve::solve_3x3(matrix_of(x), [x[9], x[10], x[11]]).held(e),
        "cd_from_theta" => project::cd_from_theta(x[0], x[1], at::<usize>(a, 2) != 0).held(e),
        "rotation_from_theta_crval" => {
            project::rotation_from_theta_crval(x[0], sky(x[1], x[2])).held(e)
        }
        "wcs_to_rotation" => wcs_to_rotation(x, at(a, 6)).held(e),
        "accumulate_normal_equations" => accumulate(x).held(e),
        _ => None,
    }
}

fn wcs_to_rotation(x: [f64; 20], width: usize) -> WcsRotation {
    let cd = [[x[0], x[1]], [x[2], x[3]]];
    project::wcs_to_rotation(cd, sky(x[4], x[5]), (width % 0x1_0000_0000) as u32)
}

// The sums so far, and then what a match brings.
fn accumulate(x: [f64; 20]) -> Sums {
    let so_far = Sums {
        ata: matrix_of(x),
        atb: [x[9], x[10], x[11]],
    };
    let spot = Spot {
        px: x[12],
        py: x[13],
        weight: x[14],
    };
    let left = Plane {
        xi: x[18],
        eta: x[19],
    };
    let roll = Roll {
        cos_t: x[15],
        sin_t: x[16],
        ps: x[17],
    };
    fit::accumulate_normal_equations(so_far, spot, roll, left)
}

// The first nine, by rows.
pub(crate) fn matrix_of(x: [f64; 20]) -> [[f64; 3]; 3] {
    [[x[0], x[1], x[2]], [x[3], x[4], x[5]], [x[6], x[7], x[8]]]
}
