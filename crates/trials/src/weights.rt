// Refusal 17: both sides of a weight's bounds, and its place among the other checks. A trial tells the number of its refusal, or 0.
use crate::call::{Call, lawful, refused};
use rounding::from_bits;

// The last of two spots has the weight.
pub(crate) fn bounds(rt: &HostRuntime) {
    for (name, bits) in &[
        ("weight 2^-10", 0x3F50_0000_0000_0000),
        ("weight below 2^-10", 0x3F4F_FFFF_FFFF_FFFF),
        ("weight above 2^-10", 0x3F50_0000_0000_0001),
        ("weight 2^10", 0x4090_0000_0000_0000),
        ("weight above 2^10", 0x4090_0000_0000_0001),
        ("weight below 2^10", 0x408F_FFFF_FFFF_FFFF),
        ("weight 0", 0x0000_0000_0000_0000),
        ("weight -0", 0x8000_0000_0000_0000),
        ("weight -1", 0xBFF0_0000_0000_0000),
        ("weight NaN", 0x7FF8_0000_0000_0000),
        ("weight infinite", 0x7FF0_0000_0000_0000),
        ("weight -infinite", 0xFFF0_0000_0000_0000),
    ] {
        let spots = [1.0, 2.0, 1.0, 3.0, 4.0, from_bits(*bits)];
        refused(
            rt,
            name,
            Call {
                spots: &spots,
                ..lawful()
            },
        );
    }
}

// The first of two spots has the weight 0, and nothing else is wrong.
fn weightless<'a>() -> Call<'a> {
    Call {
        spots: &[1.0, 2.0, 0.0, 3.0, 4.0, 1.0],
        ..lawful()
    }
}

// 17 comes after 5 to 9 and 14, whatever stands later in the lists, and before 10 and 11.
pub(crate) fn order(rt: &HostRuntime) {
    refused(rt, "weight 0 of the first spot", weightless());
    refused(
        rt,
        "weight 0, cut 0",
        Call {
            cut: 0.0,
            ..weightless()
        },
    );
    let spots = [1.0, 2.0, 0.0, 3.0, from_bits(0x7FF8_0000_0000_0000), 1.0];
    refused(
        rt,
        "weight 0, later coordinate NaN",
        Call {
            spots: &spots,
            ..weightless()
        },
    );
    let nan = from_bits(0x7FC0_0000);
    let directions = [nan, 0.0, 0.0];
    refused(
        rt,
        "weight 0, component NaN",
        Call {
            directions: &directions,
            ..weightless()
        },
    );
    let rotation = [[1.0, 0.0, 0.0], [0.0, 1.0, 0.0], [0.0, nan, 1.0]];
    refused(
        rt,
        "weight 0, rotation entry NaN",
        Call {
            rotation,
            ..weightless()
        },
    );
    refused(
        rt,
        "weight 0, match past the end",
        Call {
            matches: &[2, 0],
            ..weightless()
        },
    );
    refused(
        rt,
        "weight 0, working list too short",
        Call {
            numbers: 63,
            ..weightless()
        },
    );
}
