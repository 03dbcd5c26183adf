// The bounds of refusals 6 to 9, 14 and 17, each a constant of the type that it bounds. Ranges include both ends; neither a NaN nor an infinity lies in one.
ghost use Rattle.std.specs.Prelude.{◌≡◌, leb, Bool, Float};
ghost use Rattle.rounding.specs.Arith.{one64};
ghost use Rattle.entry.specs.Check.{between, least, least_cut, most_cut, least_weight, most_weight, far_spot, long_component};
ghost use Rattle.std.specs.Float.Ieee.{neg};

use rounding::widen;

// How many there are of something, at most MOST.
#[derive(Clone, Copy)]
pub struct Count<const MOST: usize> {
    pub count: usize,
}

impl<const MOST: usize> Count<MOST> {
    pub const MOST: usize = MOST;

    // Stays (no plainer): `From<usize>` is an impl with a ghost member where this has one clause, and its four calls would read as they do.
    pub fn of(count: usize) -> Self
        ensures { result.count ≡ count }
    {
        Count { count }
    }

    pub fn is_lawful(&self) -> bool
        ensures { result ≡ leb self.now.count MOST }
    {
        self.count <= MOST
    }
}

// How many spots a call has,
pub type Spots = Count<4096>;

// starting matches,
pub type Matches = Count<4096>;

// directions,
pub type Directions = Count<65536>;

// and how many rounds it may make.
pub type Rounds = Count<64>;

// A number of a call, and the range that it has to lie in. An `f32` is widened, which changes no value.
pub trait Bounded {
    ghost LEAST: { Float };

    const LEAST: f64;

    ghost MOST: { Float };

    const MOST: f64;

    ghost value: { Self → Float };

    fn value(&self) -> f64
        ensures { result ≡ value self.now };

    #[tactic(auto, unfolding(crate::specs::Check::between))]
    fn is_lawful(&self) -> bool
        ensures { result ≡ between LEAST (value self.now) MOST }
    {
        let x = self.value();
        Self::LEAST <= x && x <= Self::MOST
    }
}

// Stays (form of 01): "the bounds of refusals 6 to 9 are constants of the types they bound", so each of the six from here on is a type with its two.

// The pixel scale, in radians per pixel: 2^-30 to 1.
#[derive(Clone, Copy)]
pub struct Scale(pub f64);

impl Bounded for Scale {
    ghost LEAST = { least };

    const LEAST: f64 = 0.000000000931322574615478515625;

    ghost MOST = { one64 };

    const MOST: f64 = 1.0;

    ghost value = { λ s. s.0 };

    fn value(&self) -> f64 {
        self.0
    }
}

// The match radius, in radians: 2^-30 to 1.
#[derive(Clone, Copy)]
pub struct Radius(pub f32);

impl Radius {
    pub const LEAST: f32 = 0.000000000931322574615478515625;

    pub const MOST: f32 = 1.0;
}

impl Bounded for Radius {
    ghost LEAST = { least };

    const LEAST: f64 = 0.000000000931322574615478515625;

    ghost MOST = { one64 };

    const MOST: f64 = 1.0;

    ghost value = { λ s. s.0 };

    fn value(&self) -> f64 {
        widen(self.0)
    }
}

// The plane cut: a direction whose denominator is at most this is dropped. 1e-12 to 0.5.
#[derive(Clone, Copy)]
pub struct Cut(pub f64);

impl Bounded for Cut {
    ghost LEAST = { least_cut };

    const LEAST: f64 = 0.000000000001;

    ghost MOST = { most_cut };

    const MOST: f64 = 0.5;

    ghost value = { λ c. c.0 };

    fn value(&self) -> f64 {
        self.0
    }
}

// A coordinate of a spot, in pixels: within 2^20 of zero.
#[derive(Clone, Copy)]
pub struct Coordinate(pub f64);

impl Bounded for Coordinate {
    ghost LEAST = { neg far_spot };

    const LEAST: f64 = -1048576.0;

    ghost MOST = { far_spot };

    const MOST: f64 = 1048576.0;

    ghost value = { λ x. x.0 };

    fn value(&self) -> f64 {
        self.0
    }
}

// A spot's weight: 2^-10 to 2^10.
#[derive(Clone, Copy)]
pub struct Weight(pub f64);

impl Bounded for Weight {
    ghost LEAST = { least_weight };

    const LEAST: f64 = 0.0009765625;

    ghost MOST = { most_weight };

    const MOST: f64 = 1024.0;

    ghost value = { λ w. w.0 };

    fn value(&self) -> f64 {
        self.0
    }
}

// A component of a direction, or an entry of the rotation: within 2 of zero.
#[derive(Clone, Copy)]
pub struct Component(pub f32);

impl Component {
    pub const LEAST: f32 = -2.0;

    pub const MOST: f32 = 2.0;
}

impl Bounded for Component {
    ghost LEAST = { neg long_component };

    const LEAST: f64 = -2.0;

    ghost MOST = { long_component };

    const MOST: f64 = 2.0;

    ghost value = { λ x. x.0 };

    fn value(&self) -> f64 {
        widen(self.0)
    }

    // Stays (speed): each component of each direction is asked, and widened first by the default method a check of 65,536 directions took 1.4 times the
    // instructions.
    fn is_lawful(&self) -> bool {
        let x = self.0;
        Component::LEAST <= x && x <= Component::MOST
    }
}
