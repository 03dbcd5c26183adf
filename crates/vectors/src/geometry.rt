// The functions of the crate `project` that give points, by name.
use crate::answer::Answer;
use crate::line::Asked;
use crate::matrices::matrix_of;
use crate::word::list;
use project::{Plane, Roll, Sky};

pub(crate) fn answer(asked: Asked<'_>) -> Option<&[usize]> {
    let Asked { name, a, e } = asked;
    let [p, q, r, s, t]: [f64; 5] = list(a, 0);
    match name {
        "tan_project" => project::tan_project(sky(p, q), sky(r, s)).held(e),
        "tan_project_vec" => tan_project_vec(a).held(e),
        "inverse_tan_project" => {
            let q = Plane { xi: p, eta: q };
            project::inverse_tan_project(q, sky(r, s)).held(e)
        }
        "predict_tanplane" => {
            let roll = Roll {
                cos_t: r,
                sin_t: s,
                ps: t,
            };
            project::predict_tanplane(p, q, roll).held(e)
        }
        _ => None,
    }
}

pub(crate) fn sky(ra: f64, dec: f64) -> Sky {
    Sky { ra, dec }
}

// A direction, then the basis, then the plane cut.
fn tan_project_vec(a: &[usize]) -> Option<Plane> {
    let x: [f64; 20] = list(a, 3);
    project::tan_project_vec(list(a, 0), matrix_of(x), x[9])
}
