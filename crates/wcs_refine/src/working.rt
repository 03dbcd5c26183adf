// What a run works on: the course, the state, and the lists that it is lent.
ghost use Rattle.std.specs.Prelude.{◌≡◌, ◌*◌, ◌≤◌, length};
ghost use Rattle.pairs.specs.Candidates.{capacity};

use crate::course::Course;
use query::Held;

// What a round starts from and leaves is `held`, by value, with two working lists, in regions (specs/Keeping.antt), which have room for it. The
// candidate lists are the matcher's.
// Stays (fixed memory): regions of two lent lists, at multiples of the room, stand for lists of their own, and how many matches and cached directions
// there are is counted beside them. `Same` in the contracts relates a run's lists before and after, which no field can hold.
#[derive(Drop)]
pub(crate) struct Working<'a> {
    pub course: Course<'a>,
    pub held: Held,
    pub numbers: &'a mut [usize],
    pub floats: &'a mut [f64],
    pub distances: &'a mut [f64],
    pub indices: &'a mut [usize],
    ghost many: { 16 * course.room ≤ length numbers.now },
    ghost far: { 16 * course.room ≤ length floats.now },
    ghost capacity: { course.k.capacity ≡ capacity distances.now indices.now },
    ghost used: { held.used ≤ course.room },
    ghost cached: { held.cached ≤ course.k.count },
}

impl<'a> Working<'a> {
    pub(crate) fn new(
        course: Course<'a>,
        held: Held,
        numbers: &'a mut [usize],
        floats: &'a mut [f64],
        distances: &'a mut [f64],
        indices: &'a mut [usize],
    ) -> Self
        requires { (16 * course.room ≤ length numbers.old) × (16 * course.room ≤ length floats.old)
            × (course.k.capacity ≡ capacity distances.old indices.old)
            × (held.used ≤ course.room) × (held.cached ≤ course.k.count) }
        ensures { (result.course ≡ course.entry) × (result.held ≡ held)
            × (result.numbers ≡ numbers.entry)
            × (result.floats ≡ floats.entry)
            × (result.distances ≡ distances.entry)
            × (result.indices ≡ indices.entry) }
    {
        Working {
            course,
            held,
            numbers,
            floats,
            distances,
            indices,
        }
    }
}
