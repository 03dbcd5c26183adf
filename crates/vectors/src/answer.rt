// What functions answer, held against the expected numbers of a line.
use fit::{Counted, Sums};
use project::{Plane, Sky, WcsRotation};
use solve::Solution;
use stats::MedianSigma;
use std::cmp::Ordering;

// As numbers of a line: floats stand by their bits.
pub(crate) trait Answer: Copy {
    // The expected numbers behind those of this answer; None where they are others or too few. So an answer is as expected just if nothing is left.
    fn held(self, e: &[usize]) -> Option<&[usize]>;
}

impl Answer for usize {
    fn held(self, e: &[usize]) -> Option<&[usize]> {
        let (first, rest) = e.split_first()?;
        if *first == self { Some(rest) } else { None }
    }
}

impl Answer for bool {
    fn held(self, e: &[usize]) -> Option<&[usize]> {
        usize::from(self).held(e)
    }
}

impl Answer for f64 {
    fn held(self, e: &[usize]) -> Option<&[usize]> {
        (rounding::to_bits(self) as usize).held(e)
    }
}

impl Answer for f32 {
    // Stays (no plainer): what the two formats share is a trait that `rounding` does not hand out.
    fn held(self, e: &[usize]) -> Option<&[usize]> {
        (rounding::to_bits(self) as usize).held(e)
    }
}

impl Answer for Ordering {
    fn held(self, e: &[usize]) -> Option<&[usize]> {
        let n: usize = match self {
            Ordering::Less => 0,
            Ordering::Equal => 1,
            Ordering::Greater => 2,
        };
        n.held(e)
    }
}

// 1 and its values, or 0.
impl<T: Answer> Answer for Option<T> {
    fn held(self, e: &[usize]) -> Option<&[usize]> {
        match self {
            Some(x) => (1usize, x).held(e),
            None => 0usize.held(e),
        }
    }
}

impl<T: Answer, U: Answer> Answer for (T, U) {
    fn held(self, e: &[usize]) -> Option<&[usize]> {
        self.1.held(self.0.held(e)?)
    }
}

impl<T: Answer> Answer for &[T] {
    fn held(self, e: &[usize]) -> Option<&[usize]> {
        let mut rest = e;
        for x in self {
            rest = x.held(rest)?;
        }
        Some(rest)
    }
}

impl<T: Answer, const N: usize> Answer for [T; N] {
    fn held(self, e: &[usize]) -> Option<&[usize]> {
        self.as_slice().held(e)
    }
}

// As an option of three floats.
impl Answer for Solution {
    fn held(self, e: &[usize]) -> Option<&[usize]> {
        match self {
            Solution::Solved(x, y, z) => Some([x, y, z]).held(e),
            Solution::Failed => None::<f64>.held(e),
        }
    }
}

// Stays (no plainer): this and the next three take two fields of their own type each.
impl Answer for Plane {
    fn held(self, e: &[usize]) -> Option<&[usize]> {
        let Plane { xi, eta } = self;
        (xi, eta).held(e)
    }
}

impl Answer for Sky {
    fn held(self, e: &[usize]) -> Option<&[usize]> {
        let Sky { ra, dec } = self;
        (ra, dec).held(e)
    }
}

impl Answer for MedianSigma {
    fn held(self, e: &[usize]) -> Option<&[usize]> {
        let MedianSigma { median, sigma } = self;
        (median, sigma).held(e)
    }
}

impl Answer for Sums {
    fn held(self, e: &[usize]) -> Option<&[usize]> {
        let Sums { ata, atb } = self;
        (ata, atb).held(e)
    }
}

// The matrix alone, and the number of matches.
impl Answer for Counted {
    fn held(self, e: &[usize]) -> Option<&[usize]> {
        let Counted { sums, n } = self;
        let ata = sums.ata;
        (ata, n).held(e)
    }
}

impl Answer for WcsRotation {
    fn held(self, e: &[usize]) -> Option<&[usize]> {
        let WcsRotation {
            rotation,
            fov,
            parity_flip,
        } = self;
        (rotation, (fov, parity_flip)).held(e)
    }
}
