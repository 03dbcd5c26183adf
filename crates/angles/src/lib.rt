// Sine, cosine and their inverses. Each operation rounds once and none is fused, so that every machine gives the same bits. No function here
// asks anything of its caller: what has no answer is a NaN.
#![tactic(auto)]

mod direct; // direct.rt: sine and cosine
mod inverse; // inverse.rt: arc tangent, arc sine, and the angle of a direction

pub use direct::{SinCos, cos, cos_f32, sin, sin_cos};
pub use inverse::{asin, atan, atan2};
