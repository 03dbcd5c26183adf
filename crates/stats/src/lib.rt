// Robust statistics: the Rust's stats.rs.
#![tactic(auto)]

ghost use Rattle.std.specs.Prelude.{◌≡◌};
ghost use Rattle.stats.specs.Median.{Summarised, deviations};

mod sample; // sample.rt: thresholds near a place
mod selection; // selection.rt: the element at a place of the order

// MAD_SCALE: from a median absolute deviation to a standard deviation.
const MAD_SCALE: f64 = 1.4826;

// The median, and the standard deviation that the median absolute deviation stands for.
#[derive(Clone, Copy, Default)]
pub struct MedianSigma {
    pub median: f64,
    pub sigma: f64,
}

// Each value's distance from m.
fn deviate(vals: &mut [f64], m: f64)
    ensures { vals.new ≡ deviations m vals.old }
{
    for x in vals {
        *x = rounding::abs(*x - m);
    }
}

// The median and 1.4826 times the median absolute deviation, each the upper of two middle values; 0 and 0 where there are no values.
// The list is scratch, and is left all zero.
pub fn median_mad_sigma(vals: &mut [f64]) -> MedianSigma
    ensures { Summarised vals.old vals.new result }
{
    let n = vals.len();
    if n < 1 {
        return MedianSigma::default();
    }
    let mid = n / 2;
    let median = selection::select(vals, mid);
    deviate(vals, median);
    let sigma = MAD_SCALE * selection::select(vals, mid);
    lists::clear(vals, n);
    MedianSigma { median, sigma }
}
