// Two calls that differ in a few places. Where every premise of the theorem about two calls holds, they answer alike; for each premise there
// are two calls that break just that one, and they do not.
use crate::call::{Call, ahead};
use entry::Matcher;
use refusal::Refusal;
use rounding::{from_bits, to_bits};
use wcs_refine::WcsRefineResult;

// What varies between the calls: the weight of spot 2; spot 4 and spot 5, which are beyond the limit of 4; the first component but one of
// direction 0; direction 4; how many directions there are; what the result list holds before; and of the call's other numbers the starting matches, the
// limit, the radius and the plane cut.
#[derive(Clone, Copy)]
struct Varied<'a> {
    pub weight2: f64,
    pub spot4: [f64; 3],
    pub spot5: [f64; 3],
    pub near: f32,
    pub direction4: [f32; 3],
    pub directions: usize,
    pub before: usize,
    pub given: Call<'a>,
}

// Starting matches of which one names direction 4, and others of which one names spot 5.
const OF_DIRECTION: [usize; 8] = [0, 4, 1, 1, 2, 2, 3, 3];

const OF_SPOT: [usize; 8] = [5, 0, 1, 1, 2, 2, 3, 3];

fn given<'a>() -> Call<'a> {
    Call {
        matches: &[],
        limit: 4,
        radius: 0.001,
        rounds: 3,
        ..ahead()
    }
}

fn base<'a>() -> Varied<'a> {
    Varied {
        weight2: 1.0,
        spot4: [60.0, 0.0, 1.0],
        spot5: [5.0, 5.0, 1.0],
        near: 0.01,
        direction4: [-1.0, 0.0, 0.0],
        directions: 5,
        before: 9,
        given: given(),
    }
}

// With these starting matches.
fn starting<'a>(v: Varied<'a>, matches: &'a [usize]) -> Varied<'a> {
    Varied {
        given: Call { matches, ..v.given },
        ..v
    }
}

// With this matcher.
fn chosen<'a>(v: Varied<'a>, matcher: Matcher) -> Varied<'a> {
    Varied {
        given: Call { matcher, ..v.given },
        ..v
    }
}

// The answer, and what stands in the last place of the result list.
#[derive(Drop)]
struct Ended {
    pub said: Result<WcsRefineResult, Refusal>,
    pub last: usize,
}

// Four spots lie at four of the directions, turned by a sixteenth of a radian from where the rotation has them.
fn outcome(v: Varied<'_>) -> Ended {
    let [x4, y4, w4] = v.spot4;
    let [x5, y5, w5] = v.spot5;
    let [a, b, c] = v.direction4;
    let spots = [
        10.21875, -0.640625, 1.0, -7.921875, 4.59375, 1.0, 2.75, 11.109375, v.weight2, -3.703125,
        -10.03125, 1.0, x4, y4, w4, x5, y5, w5,
    ];
    let directions = [
        1.0, v.near, 0.0, 1.0, -0.008, 0.004, 1.0, 0.002, 0.011, 1.0, -0.003, -0.01, a, b, c, 0.0,
        1.0, 0.0,
    ];
    let mut numbers = [0usize; 240];
    let mut floats = [0.0f64; 240];
    let mut distances = [0.0f64; 64];
    let mut indices = [0usize; 128];
    let mut result = [v.before; 16];
    let given = v.given;
    let call = Call {
        spots: &spots,
        directions: &directions[..3 * v.directions.min(6)],
        ..given
    };
    let said = call.made_on(
        &mut numbers,
        &mut floats,
        &mut distances,
        &mut indices,
        &mut result,
    );
    Ended {
        said,
        last: result[15],
    }
}

fn counts(r: WcsRefineResult) -> [usize; 5] {
    [r.matches, r.rounds, r.passes, r.queries, r.comparisons]
}

// Bit for bit.
// Stays (no plainer): by `==` of the answer's own, floats would be compared as numbers, 0 and -0 alike and a NaN unlike itself.
fn place(r: WcsRefineResult) -> [u64; 3] {
    let p = r.pose;
    [to_bits(p.theta), to_bits(p.ra), to_bits(p.dec)]
}

pub(crate) fn same_bits(
    a: Result<WcsRefineResult, Refusal>,
    b: Result<WcsRefineResult, Refusal>,
) -> bool {
    match (a, b) {
        (Ok(x), Ok(y)) => counts(x) == counts(y) && place(x) == place(y),
        (Err(x), Err(y)) => x == y,
        _ => false,
    }
}

fn alike(a: Ended, b: Ended) -> bool {
    a.last == b.last && same_bits(a.said, b.said)
}

// Whether the answers are alike.
fn compare(rt: &HostRuntime, name: &str, v: Varied<'_>, w: Varied<'_>) {
    let same = alike(outcome(v), outcome(w));
    let said = if same { "alike" } else { "different" };
    let _ = println!(rt; "{name}: {said}");
}

pub(crate) fn all(rt: &HostRuntime) {
    let v = base();
    each_premise(rt, v);
    let _ = println!(rt; "two calls with the matcher that scans");
    each_premise(rt, chosen(v, Matcher::Scanning));
    compare(rt, "another matcher", v, chosen(v, Matcher::Scanning));
}

fn each_premise(rt: &HostRuntime, v: Varied<'_>) {
    compare(
        rt,
        "an unseen spot and an unseen direction",
        v,
        Varied {
            spot5: [4.0, -6.0, 1.0],
            direction4: [0.0, -1.0, 0.0],
            ..v
        },
    );
    directions(rt, v);
    spots(rt, v);
    weights(rt, v);
    others(rt, v);
}

fn directions(rt: &HostRuntime, v: Varied<'_>) {
    compare(
        rt,
        "a direction that a query lists",
        v,
        Varied { near: 0.0101, ..v },
    );
    let n = Varied {
        direction4: [0.5, 0.25, 0.0],
        ..starting(v, &OF_DIRECTION)
    };
    compare(
        rt,
        "a direction that a starting match names",
        n,
        Varied {
            direction4: [0.5, 0.2, 0.0],
            ..n
        },
    );
    compare(
        rt,
        "an unlawful direction",
        v,
        Varied {
            direction4: [-3.0, 0.0, 0.0],
            ..v
        },
    );
}

fn spots(rt: &HostRuntime, v: Varied<'_>) {
    let w = Varied {
        given: Call {
            limit: 6,
            ..v.given
        },
        ..v
    };
    compare(
        rt,
        "a spot within the limit",
        w,
        Varied {
            spot5: [10.25, 0.0, 1.0],
            ..w
        },
    );
    let n = starting(v, &OF_SPOT);
    compare(
        rt,
        "a spot that a starting match names",
        n,
        Varied {
            spot5: [5.0, 4.0, 1.0],
            ..n
        },
    );
    compare(
        rt,
        "a spot farther than every unchanged one",
        v,
        Varied {
            spot4: [14.0, 0.0, 1.0],
            ..v
        },
    );
    let nan = from_bits(0x7FF8_0000_0000_0000);
    compare(
        rt,
        "an unlawful spot",
        v,
        Varied {
            spot5: [nan, 5.0, 1.0],
            ..v
        },
    );
}

// With another weight of spot 5.
fn weight5<'a>(v: Varied<'a>, weight: f64) -> Varied<'a> {
    Varied {
        spot5: [5.0, 5.0, weight],
        ..v
    }
}

// Spots that differ in their weight alone are changed too.
fn weights(rt: &HostRuntime, v: Varied<'_>) {
    compare(rt, "the weight of an unseen spot", v, weight5(v, 1024.0));
    compare(
        rt,
        "an unlawful weight of an unseen spot",
        v,
        weight5(v, 0.0),
    );
    compare(
        rt,
        "the weight of a spot within the limit",
        v,
        Varied { weight2: 3.0, ..v },
    );
    let n = starting(v, &OF_SPOT);
    compare(
        rt,
        "the weight of a spot that a starting match names",
        n,
        weight5(n, 3.0),
    );
    nearer(
        rt,
        Varied {
            spot4: [11.0, 0.0, 1.0],
            ..v
        },
        Varied {
            spot4: [0.0, 11.0, 1.0],
            ..v
        },
    );
}

// Spot 4 lies beyond the limit, differs in its place, and only spot 2 is as far. Where spot 2 is unchanged, spot 4 is unseen. Where spot 2 differs in
// its weight, spot 4 would still be unseen, were spots judged by their places, and nothing else would differ; but the run sees spot 2, and the
// answers differ. So what is called unchanged has to have the same weight. Were spot 2 unseen itself, no run could show this: as its place is the
// same in both calls, so is the greatest distance.
fn nearer(rt: &HostRuntime, v: Varied<'_>, w: Varied<'_>) {
    compare(rt, "a spot no farther than an unchanged one", v, w);
    compare(
        rt,
        "a spot no farther than one that differs in its weight alone",
        v,
        Varied { weight2: 3.0, ..w },
    );
}

fn others(rt: &HostRuntime, v: Varied<'_>) {
    let n = starting(v, &OF_DIRECTION);
    compare(
        rt,
        "another count of directions",
        n,
        Varied { directions: 6, ..n },
    );
    compare(
        rt,
        "another radius",
        v,
        Varied {
            given: Call {
                radius: 0.0005,
                ..v.given
            },
            ..v
        },
    );
    // The direction that a starting match names has the denominator 0.5, so the greater cut drops it.
    let grazing = Varied {
        direction4: [0.5, 0.25, 0.0],
        ..n
    };
    compare(
        rt,
        "another cut",
        grazing,
        Varied {
            given: Call {
                cut: 0.5,
                ..grazing.given
            },
            ..grazing
        },
    );
    compare(
        rt,
        "other contents of the result list",
        v,
        Varied { before: 8, ..v },
    );
}
