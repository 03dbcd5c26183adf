// The functions that take numbers and give one number, by name: those of the crates `rounding` and `angles`.
use crate::answer::Answer;
use crate::line::Asked;
use crate::word::{at, list};

pub(crate) fn answer(asked: Asked<'_>) -> Option<&[usize]> {
    let Asked { name, a, e } = asked;
    let single: f32 = at(a, 0);
    let [x, y, z]: [f64; 3] = list(a, 0);
    match name {
        "sqrt32" => rounding::sqrt(single).held(e),
        "cos32" => angles::cos_f32(single).held(e),
        "widen" => rounding::widen(single).held(e),
        "sqrt64" => rounding::sqrt(x).held(e),
        "abs" => rounding::abs(x).held(e),
        "sin" => angles::sin(x).held(e),
        "cos" => angles::cos(x).held(e),
        "atan" => angles::atan(x).held(e),
        "asin" => angles::asin(x).held(e),
        "narrow" => rounding::narrow(x).held(e),
        "is_finite" => rounding::is_finite(x).held(e),
        "max" => rounding::max(x, y).held(e),
        "min" => rounding::min(x, y).held(e),
        "atan2" => angles::atan2(x, y).held(e),
        "total_cmp" => rounding::total_cmp(x, y).held(e),
        "clamp" => rounding::clamp(x, y, z).held(e),
        _ => None,
    }
}
