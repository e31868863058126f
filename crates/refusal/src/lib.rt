// Why a call is refused. Each refusal has document 01's number, and two of them name a place: the number's position, or the record's start.
#![tactic(auto)]

ghost use Rattle.std.specs.Prelude.{◌≡◌};
ghost use Rattle.refusal.specs.Refusals.{refusal_number, refusal_place};
ghost use Rattle.refusal.specs.Reports.{NoValue, Reports};

// The refusals of all calls, in the order of their numbers.
#[derive(Clone, Copy)]
pub enum Refusal {
    WrongDimension,
    ZeroLeafThreshold,
    SmallFactor,
    ZeroThreshold,
    ManyNeighbours,
    NoPoints,
    MissingCoordinate,
    ManyPoints,
    WrongReductions,
    NotFinite(usize),
    ShortList,
    StretchPastList,
    WrongChoice,
    NotAboveThreshold,
    NoRoot,
    BrokenRecord(usize),
    LargeJob,
    OtherSettings,
    OtherPoints,
    NoSoundTree,
    FullTable,
    NoLiveSlot,
    UnsoundTable,
}

impl Refusal {
    // Its number. A method, and no discriminant or `From`: two cases carry a place, and the name says what the number is.
    pub fn number(self) -> usize
        ensures { result ≡ refusal_number self }
    {
        match self {
            Refusal::WrongDimension => 1,
            Refusal::ZeroLeafThreshold => 2,
            Refusal::SmallFactor => 3,
            Refusal::ZeroThreshold => 4,
            Refusal::ManyNeighbours => 5,
            Refusal::NoPoints => 6,
            Refusal::MissingCoordinate => 7,
            Refusal::ManyPoints => 8,
            Refusal::WrongReductions => 9,
            Refusal::NotFinite(_) => 10,
            Refusal::ShortList => 11,
            Refusal::StretchPastList => 12,
            Refusal::WrongChoice => 13,
            Refusal::NotAboveThreshold => 14,
            Refusal::NoRoot => 15,
            Refusal::BrokenRecord(_) => 16,
            Refusal::LargeJob => 17,
            Refusal::OtherSettings => 18,
            Refusal::OtherPoints => 19,
            Refusal::NoSoundTree => 20,
            Refusal::FullTable => 21,
            Refusal::NoLiveSlot => 22,
            Refusal::UnsoundTable => 27,
        }
    }

    // Its place: 0 where it names none, as document 01 and the slots of C have it, so it is no Option.
    pub fn place(self) -> usize
        ensures { result ≡ refusal_place self }
    {
        match self {
            Refusal::NotFinite(position) => position,
            Refusal::BrokenRecord(start) => start,
            _ => 0,
        }
    }
}

// What is told of an answer: the refusal's number, 0 for none, its place, and the value, which is the type's zero where the call is refused.
// No Result: the slots of C, the stored calls and the edges in print, which it is told to, have none.
#[derive(Clone, Copy)]
pub struct Report<T> {
    pub number: usize,
    pub place: usize,
    pub value: T,
}

impl<T: Default> Report<T> {
    // What is told of a refusal with this number and this place. Numbers, and no `Refusal`: that type has places for some refusals only, and asks
    // more.
    pub fn refused(number: usize, place: usize) -> Report<T>
        ensures { NoValue T.is_default number place result }
    {
        Report {
            number,
            place,
            value: T::default(),
        }
    }

    // What is told of this answer.
    pub fn of(answer: Result<T, Refusal>) -> Report<T>
        ensures { Reports T.is_default answer result }
    {
        match answer {
            Ok(value) => Report {
                number: 0,
                place: 0,
                value,
            },
            Err(refusal) => Report::refused(refusal.number(), refusal.place()),
        }
    }
}
