// The lists after refusals 14 and 17: as they came, where an accepted call writes to them.
use crate::LEAST_CUT;
use crate::call::{Call, ahead, tell};
use refusal::number_given;

fn still<T: Copy + PartialEq>(list: &[T], x: T) -> bool {
    list.iter().all(|y| *y == x)
}

// Every place holds a 7 before the call.
fn left(rt: &HostRuntime, name: &str, weight: f64, cut: f64) {
    let mut numbers = [7usize; 32];
    let mut floats = [7.0f64; 32];
    let mut distances = [7.0f64; 8];
    let mut indices = [7usize; 16];
    let mut result = [7usize; 2];
    let spots = [1.0, 2.0, weight];
    let c = Call {
        spots: &spots,
        matches: &[],
        cut,
        ..ahead()
    };
    let r = c.made_on(
        &mut numbers,
        &mut floats,
        &mut distances,
        &mut indices,
        &mut result,
    );
    tell(rt, name, number_given(r));
    let same = still(&numbers, 7)
        && still(&floats, 7.0)
        && still(&distances, 7.0)
        && still(&indices, 7)
        && still(&result, 7);
    let _ = println!(rt;
        "  the lists {}",
        if same {
            "are as they came"
        } else {
            "were written to"
        }
    );
}

pub(crate) fn all(rt: &HostRuntime) {
    left(rt, "lists with a cut of 0", 1.0, 0.0);
    left(rt, "lists with a cut of 0.75", 1.0, 0.75);
    left(rt, "lists with a cut of 0.5", 1.0, 0.5);
    left(rt, "lists with a weight of 0", 0.0, LEAST_CUT);
    left(rt, "lists with a weight of 1025", 1025.0, LEAST_CUT);
    left(rt, "lists with a weight of 1024", 1024.0, LEAST_CUT);
}
