// Why a record or a call is turned away, with the customer's numbers.
#![tactic(auto)]

ghost use Rattle.std.specs.Prelude.{◌≡◌};
ghost use Rattle.refusal.specs.Number.{number_of, number_given};

// The discriminants are the numbers. 15 and 16 come with calls that are not made yet.
#[derive(Clone, Copy, Debug, PartialEq, Eq)]
pub enum Refusal {
    // The record is longer than its most bytes.
    LongRecord = 1,
    // It ends inside a number or before its last one.
    EndsEarly = 2,
    // A number is not in its shortest form, or exceeds its field.
    WrongNumber = 3,
    // Bytes follow the last number.
    BytesAfter = 4,
    // A flat list does not divide evenly.
    Uneven = 5,
    // There are too many spots, matches, directions or rounds.
    TooMany = 6,
    // The pixel scale is out of its range,
    Scale = 7,
    // the match radius,
    Radius = 8,
    // a coordinate, a component or an entry of the rotation.
    Coordinate = 9,
    // A starting match names a spot or a direction that is not there.
    UnknownMatch = 10,
    // A lent list is too short.
    ShortList = 11,
    // The pose left its bounds.
    Unsound = 12,
    // A round finds more pairs than the candidate lists hold.
    ManyPairs = 13,
    // The plane cut is out of its range,
    Cut = 14,
    // a weight.
    Weight = 17,
}

impl Refusal {
    // Stays (no plainer): the method says which number of a refusal is meant, and `usize::from` of one would not.
    pub fn number(self) -> usize
        ensures { result ≡ number_of self }
    {
        self as usize
    }
}

// The number of a refusal, 0 where there is none.
pub fn number_given<T: Copy>(answer: Result<T, Refusal>) -> usize
    ensures { result ≡ number_given answer }
{
    match answer {
        Ok(_) => 0,
        Err(refusal) => refusal.number(),
    }
}
