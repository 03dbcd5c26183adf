// The cone query: the directions near the boresight, and whether the cached ones still do.
ghost use Rattle.std.specs.Prelude.{◌≡◌, ◌/◌, min, length};
ghost use Rattle.query.specs.Query.{dot32, axis32, scanned};
ghost use Rattle.query.specs.Listing.{least_cos_of, Fronted};

use angles::cos_f32;
use rounding::{narrow, sqrt};

// PI as an f32 has it.
const PI: f32 = 3.14159274;

// Stays (no plainer): project's `dot` is of f64; one over `Float` of `num_traits` would speak, here and at each caller, of that trait's own format
// and of each component as it converts it. `scan_into` has the product by itself, since it reads the components where they stand in the flat list.
#[tactic(auto, unfolding(crate::specs::Query::dot32))]
fn dot32(a: [f32; 3], b: [f32; 3]) -> f32
    ensures { result ≡ dot32 a b }
{
    a[0] * b[0] + a[1] * b[1] + a[2] * b[2]
}

// The axis of the cone, of length 1 as an f32 has it; (1, 0, 0) where there is no length.
#[tactic(auto, unfolding(crate::specs::Query::axis32))]
pub fn axis32(b: [f64; 3]) -> [f32; 3]
    ensures { result ≡ axis32 b }
{
    let v = b.map(|x| narrow(x));
    let n = sqrt(dot32(v, v));
    if 0.0 < n {
        v.map(|x| x / n)
    } else {
        [1.0, 0.0, 0.0]
    }
}

// The cosine of the cone's radius.
#[tactic(auto, unfolding(crate::specs::Listing::least_cos_of, rounding::specs::Methods::clamp_f))]
pub fn least_cos_of(search: f64, margin: f64) -> f32
    ensures { result ≡ least_cos_of search margin }
{
    cos_f32(narrow(search + margin).clamp(0.0, PI))
}

// The directions within the cone, ascending, at the front of `out`; of the first ones, as many as it has places.
// Stays (fixed memory): it answers how many stand at the front of the lent list; so does `prune_in_place`.
#[tactic(auto, unfolding(crate::specs::Query::scanned, crate::specs::Query::dot32, fit::specs::Rows::direction_at))]
pub fn scan_into(directions: &[f32], axis: [f32; 3], least: f32, out: &mut [usize]) -> usize
    ensures { Fronted
        (scanned directions.now axis least 0
        (min (length directions.now / 3) (length out.old)))
        out.old out.new result }
{
    let n = (directions.len() / 3).min(out.len());
    let [x, y, z] = axis;
    let mut k = 0;
    for j in 0..n {
        let at = 3 * j;
        let d = x * directions[at] + y * directions[at + 1] + z * directions[at + 2];
        if least <= d {
            out[k] = j;
            k += 1;
        }
    }
    k
}
