// Runs the vectors of its files and says of each file how many came out as it expects, and which did not.
//
// A line of a file is a function's name, its arguments, `=`, and the expected answer, all numbers in hexadecimal and floats by their bits;
// a line that starts with # is a remark. Each file's first lines say how it was made.
#![tactic(auto)]

mod answer; // answer.rt: answers held against the expected numbers
mod fitting; // fitting.rt: the fit over lists
mod geometry; // geometry.rt: points
mod line; // line.rt: one line of a file
mod matrices; // matrices.rt: matrices and the solver
mod pairing; // pairing.rt: the matcher
mod querying; // querying.rt: the cone query
mod sampling; // sampling.rt: the medians and the clip
mod scalar; // scalar.rt: numbers
mod word; // word.rt: the numbers of a line as arguments

use streams::{Told, read_file};

// The files in their order, a few names at a time.
const FILES: [&str; 8] = [
    "sqrt64.txt sqrt32.txt narrow.txt widen.txt methods.txt",
    "sin.txt cos.txt cos32.txt atan.txt asin.txt atan2.txt",
    "medians.txt matches.txt capacity.txt orderings.txt",
    "tan_project.txt inverse_tan_project.txt rotations.txt wcs_to_rotation.txt",
    "vectors.txt solve_3x3.txt covariance.txt",
    "accumulate.txt fits.txt normal_matrix.txt residuals.txt clips.txt",
    "grazing.txt grazing_residuals.txt weighted_sums.txt weighted_fits.txt",
    "axis.txt query.txt",
];

fn main(rt: HostRuntime) {
    for names in FILES {
        for name in names.split(' ') {
            run_file(&rt, name);
        }
    }
}

// The name of a file, and what became of its lines, or why it is not to be had.
// Stays (form of 01): one function for this and `replay` would be public and ask of its callers that its closure may be called; no public function asks anything.
fn run_file(rt: &HostRuntime, name: &str) {
    let _ = print!(rt; "{name}: ");
    let mut room = [0u8; 65536];
    let told = read_file(rt, name, &mut room).map(|n| line::tally(rt, &room[..n]));
    let _ = println!(rt; "{}", Told(told));
}
