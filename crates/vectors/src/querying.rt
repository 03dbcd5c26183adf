// The cone query of the crate `query`, by name. The numbers are f32: the boresight, then the radius, and the directions after their count.
use crate::answer::Answer;
use crate::line::Asked;
use crate::word::{at, count_at, list};

pub(crate) fn answer(asked: Asked<'_>) -> Option<&[usize]> {
    let Asked { name, a, e } = asked;
    match name {
        "query" => listed(a, e),
        "normalize_or_fallback" => axis(a).held(e),
        _ => None,
    }
}

// The call has a boresight and a radius in f64 and narrows them: widened before, they come out as they are.
fn axis(a: &[usize]) -> [f32; 3] {
    query::axis32(list(a, 0).map(|x| rounding::widen(x)))
}

// The directions within the cone, after their number.
fn listed<'e>(a: &[usize], e: &'e [usize]) -> Option<&'e [usize]> {
    let d = 3 * count_at(a, 4);
    let directions: [f32; 96] = list(a, 5);
    let least = query::least_cos_of(rounding::widen(at(a, 3)), 0.0);
    let mut out = [0usize; 32];
    let n = query::scan_into(&directions[..d], axis(a), least, &mut out);
    (n, out.get(..n)?).held(e)
}
