// Why a call is refused.
ghost use Rattle.std.specs.Prelude.{◌≡◌};
ghost use Rattle.basis.specs.Refusals.{number};

// In the order of the numbers that document 01 and the change requests give; 7 comes with the first three domains.
#[derive(Clone, Copy, Debug, PartialEq, Eq)]
pub enum Refusal {
    // the bytes end before a number does
    EndsEarly,
    NotShortest,
    TooLarge,
    Version,
    Count,
    Row,
    Intransitive { a: u8, b: u8, c: u8 },
    Field,
    PriorityTaken,
    // bytes after the last number
    Extra,
    // a table that was handed in
    NotLegal,
    // a state that was handed in
    NotFitting,
    StepBytes,
    LastClock,
    // no such domain, or no such thread
    Missing,
    NoRoom,
    EventMask,
    Frame,
    Actuator,
    // a byte of a trace that names no thread
    TraceByte,
}

impl From<Refusal> for u8 {
    ghost from_gives = { λ why n. n ≡ number why };

    fn from(why: Refusal) -> u8 {
        match why {
            Refusal::EndsEarly => 1,
            Refusal::NotShortest => 2,
            Refusal::TooLarge => 3,
            Refusal::Version => 4,
            Refusal::Count => 5,
            Refusal::Row => 6,
            Refusal::Intransitive { a: _, b: _, c: _ } => 7,
            Refusal::Field => 8,
            Refusal::PriorityTaken => 9,
            Refusal::Extra => 10,
            Refusal::NotLegal => 11,
            Refusal::NotFitting => 12,
            Refusal::StepBytes => 13,
            Refusal::LastClock => 14,
            Refusal::Missing => 15,
            Refusal::NoRoom => 16,
            Refusal::EventMask => 18,
            Refusal::Frame => 19,
            Refusal::Actuator => 20,
            Refusal::TraceByte => 21,
        }
    }
}
