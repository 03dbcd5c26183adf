// Both sides of the bounds of the checks on entry, but for the weights. A trial tells the number of its refusal, or 0.
use crate::call::{Call, each, lawful, refused};
use rounding::from_bits;

// With its second spot at this ordinate.
fn spot(rt: &HostRuntime, name: &str, y: f64, c: Call<'_>) {
    let spots = [1.0, 2.0, 1.0, 3.0, y, 1.0];
    refused(rt, name, Call { spots: &spots, ..c });
}

pub(crate) fn even(rt: &HostRuntime) {
    refused(rt, "a lawful call", lawful());
    let spots = [1.0, 2.0, 1.0, 3.0];
    each(
        rt,
        &[
            ("two numbers of spots", &spots[..2]),
            ("three numbers of spots", &spots[..3]),
            ("four numbers of spots", &spots),
        ],
        |spots| Call {
            spots,
            matches: &[0, 0],
            ..lawful()
        },
    );
    refused(
        rt,
        "three indices",
        Call {
            matches: &[1, 0, 0],
            ..lawful()
        },
    );
    refused(
        rt,
        "four components",
        Call {
            directions: &[1.0, 0.0, 0.0, 0.0],
            ..lawful()
        },
    );
    refused(
        rt,
        "no lists",
        Call {
            spots: &[],
            matches: &[],
            directions: &[],
            ..lawful()
        },
    );
}

pub(crate) fn few(rt: &HostRuntime) {
    few_spots(rt);
    few_matches(rt);
    few_directions(rt);
    each(
        rt,
        &[("64 rounds", 64), ("65 rounds", 65)],
        |rounds| Call { rounds, ..lawful() },
    );
}

// No lists, and another refusal behind the counts', so that a count that passes is told by 7.
fn spoiled<'a>() -> Call<'a> {
    Call {
        spots: &[],
        matches: &[],
        directions: &[],
        scale: 0.0,
        rounds: 64,
        numbers: 0,
        floats: 0,
        result: 0,
        ..lawful()
    }
}

fn few_spots(rt: &HostRuntime) {
    let spots = [0.0f64; 12291];
    each(
        rt,
        &[
            ("4096 spots, then 7", &spots[..12288]),
            ("4097 spots", &spots),
        ],
        |spots| Call { spots, ..spoiled() },
    );
}

fn few_matches(rt: &HostRuntime) {
    let matches = [0usize; 8194];
    each(
        rt,
        &[
            ("4096 matches, then 7", &matches[..8192]),
            ("4097 matches", &matches),
        ],
        |matches| Call {
            matches,
            ..spoiled()
        },
    );
}

// The counts alone are looked at: the scale is unlawful too, and so is the first component.
fn few_directions(rt: &HostRuntime) {
    let mut directions = [0.0f32; 196611];
    directions[0] = 3.0;
    each(
        rt,
        &[
            ("65536 directions, then 7", &directions[..196608]),
            ("65537 directions", &directions),
        ],
        |directions| Call {
            directions,
            ..spoiled()
        },
    );
}

pub(crate) fn scale(rt: &HostRuntime) {
    each(
        rt,
        &[
            ("scale 2^-30", 0x3E10_0000_0000_0000),
            ("scale below 2^-30", 0x3E0F_FFFF_FFFF_FFFF),
            ("scale 1", 0x3FF0_0000_0000_0000),
            ("scale above 1", 0x3FF0_0000_0000_0001),
            ("scale -2^-30", 0xBE10_0000_0000_0000),
            ("scale NaN", 0x7FF8_0000_0000_0000),
            ("scale infinite", 0x7FF0_0000_0000_0000),
        ],
        |bits| Call {
            scale: from_bits(bits),
            ..lawful()
        },
    );
}

pub(crate) fn radius(rt: &HostRuntime) {
    each(
        rt,
        &[
            ("radius 2^-30", 0x3080_0000),
            ("radius below 2^-30", 0x307F_FFFF),
            ("radius 1", 0x3F80_0000),
            ("radius above 1", 0x3F80_0001),
            ("radius NaN", 0x7FC0_0000),
            ("radius infinite", 0x7F80_0000),
        ],
        |bits| Call {
            radius: from_bits(bits),
            ..lawful()
        },
    );
}

pub(crate) fn cut(rt: &HostRuntime) {
    each(
        rt,
        &[
            ("cut 1e-12", 0x3D71_9799_812D_EA11),
            ("cut below 1e-12", 0x3D71_9799_812D_EA10),
            ("cut above 1e-12", 0x3D71_9799_812D_EA12),
            ("cut 0.5", 0x3FE0_0000_0000_0000),
            ("cut above 0.5", 0x3FE0_0000_0000_0001),
            ("cut below 0.5", 0x3FDF_FFFF_FFFF_FFFF),
            ("cut 0", 0x0000_0000_0000_0000),
            ("cut -0", 0x8000_0000_0000_0000),
            ("cut -1e-12", 0xBD71_9799_812D_EA11),
            ("cut NaN", 0x7FF8_0000_0000_0000),
            ("cut infinite", 0x7FF0_0000_0000_0000),
        ],
        |bits| Call {
            cut: from_bits(bits),
            ..lawful()
        },
    );
}

// A coordinate is no number, so that a call whose measures pass is told by 9.
pub(crate) fn order(rt: &HostRuntime) {
    let nan = from_bits(0x7FF8_0000_0000_0000);
    let cut0 = Call {
        cut: 0.0,
        ..lawful()
    };
    let scale0 = Call { scale: 0.0, ..cut0 };
    let radius0 = Call {
        radius: 0.0,
        ..lawful()
    };
    let half = Call {
        cut: 0.5,
        ..lawful()
    };
    spot(rt, "scale and cut 0, coordinate NaN", nan, scale0);
    spot(
        rt,
        "radius and cut 0, coordinate NaN",
        nan,
        Call {
            cut: 0.0,
            ..radius0
        },
    );
    spot(rt, "cut 0, coordinate NaN", nan, cut0);
    spot(rt, "cut 0.5, coordinate NaN", nan, half);
}

// Stays (no plainer): here, in `components` and for weights the spot or direction is made in the loop; a closure of `each` would hand out a call that
// borrows its own list.
pub(crate) fn coordinates(rt: &HostRuntime) {
    for (name, bits) in &[
        ("coordinate 2^20", 0x4130_0000_0000_0000),
        ("coordinate above 2^20", 0x4130_0000_0000_0001),
        ("coordinate -2^20", 0xC130_0000_0000_0000),
        ("coordinate below -2^20", 0xC130_0000_0000_0001),
        ("coordinate NaN", 0x7FF8_0000_0000_0000),
        ("coordinate infinite", 0x7FF0_0000_0000_0000),
    ] {
        spot(rt, name, from_bits(*bits), lawful());
    }
}

pub(crate) fn components(rt: &HostRuntime) {
    for (name, bits) in &[
        ("component 2", 0x4000_0000),
        ("component above 2", 0x4000_0001),
        ("component -2", 0xC000_0000),
        ("component below -2", 0xC000_0001),
        ("component NaN", 0x7FC0_0000),
        ("component infinite", 0x7F80_0000),
    ] {
        let directions = [from_bits(*bits), 0.0, 0.0];
        refused(
            rt,
            name,
            Call {
                directions: &directions,
                ..lawful()
            },
        );
    }
    each(
        rt,
        &[
            ("rotation entry 2", 0x4000_0000),
            ("rotation entry above 2", 0x4000_0001),
            ("rotation entry -2", 0xC000_0000),
            ("rotation entry below -2", 0xC000_0001),
            ("rotation entry NaN", 0x7FC0_0000),
            ("rotation entry infinite", 0xFF80_0000),
        ],
        |bits| Call {
            rotation: [
                [1.0, 0.0, 0.0],
                [0.0, 1.0, 0.0],
                [0.0, from_bits(bits), 1.0],
            ],
            ..lawful()
        },
    );
}

pub(crate) fn named(rt: &HostRuntime) {
    each(
        rt,
        &[
            ("match of the last spot and direction", &[1, 0]),
            ("match of a spot past the end", &[2, 0]),
            ("match of a direction past the end", &[0, 1]),
            ("match of the greatest index", &[0xFFFF_FFFF_FFFF_FFFF, 0]),
        ],
        |matches: &[usize; 2]| Call {
            matches,
            ..lawful()
        },
    );
}

// The limit, and how many places the working lists and the result list have.
pub(crate) fn long(rt: &HostRuntime) {
    each(
        rt,
        &[
            ("working lists exactly long enough", (1, 64, 64, 2)),
            ("whole numbers one place short", (1, 63, 64, 2)),
            ("floats one place short", (1, 64, 63, 2)),
            ("result long enough for the match", (0, 64, 64, 2)),
            ("result one place short for the match", (0, 64, 64, 1)),
            ("result long enough for both spots", (2, 64, 64, 4)),
            ("result one place short for both spots", (2, 64, 64, 3)),
            ("any limit", (0xFFFF_FFFF_FFFF_FFFF, 64, 64, 4)),
        ],
        |(limit, numbers, floats, places)| Call {
            limit,
            numbers,
            floats,
            result: places,
            ..lawful()
        },
    );
}
