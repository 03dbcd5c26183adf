// A call of the refinement, and what is written of a trial: its name, and after it a number.
use crate::LEAST_CUT;
use entry::Matcher;
use refusal::{Refusal, number_given};
use wcs_refine::{WcsRefineResult, wcs_refine};

// What a call is given, and how many places its lists have where they are made for it.
#[derive(Clone, Copy)]
pub(crate) struct Call<'a> {
    pub spots: &'a [f64],
    pub matches: &'a [usize],
    pub directions: &'a [f32],
    pub rotation: [[f32; 3]; 3],
    pub scale: f64,
    pub radius: f32,
    pub cut: f64,
    pub limit: usize,
    pub rounds: usize,
    pub matcher: Matcher,
    pub numbers: usize,
    pub floats: usize,
    pub distances: usize,
    pub indices: usize,
    pub result: usize,
}

// Two spots of weight 1, one match and one direction, and lists long enough for four things.
pub(crate) fn lawful<'a>() -> Call<'a> {
    Call {
        spots: &[1.0, 2.0, 1.0, 3.0, 4.0, 1.0],
        matches: &[1, 0],
        directions: &[1.0, 0.0, 0.0],
        rotation: [[1.0, 0.0, 0.0], [0.0, 1.0, 0.0], [0.0, 0.0, 1.0]],
        scale: 0.0009765625,
        radius: 0.0078125,
        cut: LEAST_CUT,
        limit: 1,
        rounds: 1,
        matcher: Matcher::Listing,
        numbers: 64,
        floats: 64,
        distances: 8,
        indices: 16,
        result: 2,
    }
}

// The camera looks along (1, 0, 0), and lists are as long as a trial has them.
pub(crate) fn ahead<'a>() -> Call<'a> {
    let rotation = [[0.0, 1.0, 0.0], [0.0, 0.0, 1.0], [1.0, 0.0, 0.0]];
    Call {
        rotation,
        numbers: 144,
        floats: 144,
        result: 6,
        ..lawful()
    }
}

impl Call<'_> {
    // Stays (no plainer): each of three callers has just these five lists, by name, and lends them once.
    pub(crate) fn made_on(
        self,
        numbers: &mut [usize],
        floats: &mut [f64],
        distances: &mut [f64],
        indices: &mut [usize],
        result_list: &mut [usize],
    ) -> Result<WcsRefineResult, Refusal> {
        let rotation = self.rotation;
        wcs_refine(
            self.spots,
            self.matches,
            self.directions,
            rotation,
            self.scale,
            false,
            self.radius,
            self.cut,
            self.limit,
            self.rounds,
            self.matcher,
            numbers,
            floats,
            distances,
            indices,
            result_list,
        )
    }

    pub(crate) fn made(self) -> Result<WcsRefineResult, Refusal> {
        let mut numbers = [0usize; 144];
        let mut floats = [0.0f64; 144];
        let mut distances = [0.0f64; 8];
        let mut indices = [0usize; 16];
        let mut result = [0usize; 16];
        self.made_on(
            &mut numbers[..self.numbers.min(144)],
            &mut floats[..self.floats.min(144)],
            &mut distances[..self.distances.min(8)],
            &mut indices[..self.indices.min(16)],
            &mut result[..self.result.min(16)],
        )
    }
}

// Stays (no plainer): what prints and the name of a trial come side by side to each trial; as one value they would be taken apart to print a line.
pub(crate) fn tell(rt: &HostRuntime, name: &str, n: usize) {
    let _ = println!(rt; "{name}: {n}");
}

// The number of its refusal, or 0.
pub(crate) fn refused(rt: &HostRuntime, name: &str, c: Call<'_>) {
    tell(rt, name, number_given(c.made()));
}

// A trial for each row of a table: its name, and the call by what stands beside it.
pub(crate) fn each<'a, T: Copy, F: Fn(T) -> Call<'a>>(rt: &HostRuntime, rows: &[(&str, T)], call: F)
    requires { F.IsAlwaysCallable call }
{
    for (name, x) in rows {
        refused(rt, name, call(*x));
    }
}
