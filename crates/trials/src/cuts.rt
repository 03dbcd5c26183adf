// The plane cut: directions that lie at it.
use crate::LEAST_CUT;
use crate::call::{Call, ahead, tell};
use rounding::from_bits;

// Three starting matches; the denominator of the third direction is x. How many passes fit them: one that fails where only two are in front.
fn passes(rt: &HostRuntime, name: &str, x: f32, cut: f64) {
    let directions = [1.0, 0.0, 0.0, 1.0, 0.0, 0.0078125, x, 0.0, 0.0];
    let c = Call {
        spots: &[0.0, 0.0, 1.0, 0.0, 8.0, 1.0, 8.0, 0.0, 1.0],
        matches: &[0, 0, 1, 1, 2, 2],
        directions: &directions,
        cut,
        limit: 0,
        ..ahead()
    };
    tell(rt, name, c.made().map_or(0, |r| r.passes));
}

pub(crate) fn grazing(rt: &HostRuntime) {
    let quarter = from_bits(0x3E80_0000);
    let more = from_bits(0x3E80_0001);
    let less = from_bits(0x3FCF_FFFF_FFFF_FFFF);
    passes(rt, "passes with a denominator at the cut", quarter, 0.25);
    passes(rt, "passes with a denominator above the cut", more, 0.25);
    passes(
        rt,
        "passes with a cut just below the denominator",
        quarter,
        less,
    );
    passes(rt, "passes with the least cut", quarter, LEAST_CUT);
}
