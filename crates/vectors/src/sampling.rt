// The medians and the clip, by name.
use crate::answer::Answer;
use crate::line::Asked;
use crate::word::{Word, at, count_at, list};
use residuals::NO_RESIDUAL;
use stats::MedianSigma;

pub(crate) fn answer(asked: Asked<'_>) -> Option<&[usize]> {
    let Asked { name, a, e } = asked;
    match name {
        "median_mad_sigma" => median_mad_sigma(a).held(e),
        "residual_median_sigma" => residual_median_sigma(a).held(e),
        "mad_clip_matches" => mad_clip_matches(a, e),
        _ => None,
    }
}

fn median_mad_sigma(a: &[usize]) -> MedianSigma {
    let mut values: [f64; 32] = list(a, 1);
    stats::median_mad_sigma(&mut values[..count_at(a, 0)])
}

// Numbers of matches with their residuals, after their count.
fn residuals_of(a: &[usize]) -> &[[usize; 2]] {
    a.get(1..).unwrap_or(&[]).as_chunks::<2>().0
}

// Half of the list is the function's own room.
fn residual_median_sigma(a: &[usize]) -> MedianSigma {
    let mut values = [0.0f64; 64];
    for (x, [_, residual]) in values.iter_mut().zip(residuals_of(a)) {
        *x = Word::of(*residual);
    }
    residuals::residual_median_sigma(&mut values, count_at(a, 0))
}

// The residuals with their matches' numbers, the matches, the median and sigma. The residual of each match stands at its number; the others keep
// the mark.
fn mad_clip_matches<'e>(a: &[usize], e: &'e [usize]) -> Option<&'e [usize]> {
    let r = count_at(a, 0);
    let m = 2 * count_at(a, 1 + 2 * r);
    let to = 2 + 2 * r;
    let mut marked = [NO_RESIDUAL; 32];
    for i in 0..r {
        if let Some(x) = marked.get_mut(at::<usize>(a, 1 + 2 * i)) {
            *x = at(a, 2 + 2 * i);
        }
    }
    let mut matches: [usize; 64] = list(a, to);
    let kept = residuals::mad_clip_matches(
        &marked,
        &mut matches[..m],
        at(a, to + m),
        at(a, to + m + 1),
    );
    let matches = matches.as_chunks::<2>().0;
    match kept {
        Some(k) => Some((k, matches.get(..k)?)).held(e),
        None => kept.held(e),
    }
}
