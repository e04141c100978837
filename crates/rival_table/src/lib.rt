// A second reading of which tables are legal, which threads are marked and which number a refusal has, written from documents 01 and 02
// alone. It shares types with the first, and neither a function nor a definition. It keeps the relation as sets, sorts the threads by
// selection, and finds the marks from the lowest thread up and whom they protect from the order.
#![tactic(auto)]

mod judge;
mod rank;
mod relation;

use basis::Refusal;
pub use judge::{NO_THREAD, is_held, legal};
pub use rank::{Order, leaks, order};
pub use relation::{first_gap, flows, row_is_good};
use table::{Mark, Table};

// Refuses what is not good.
pub fn unless(good: bool, why: Refusal) -> Result<(), Refusal> {
    if good { Ok(()) } else { Err(why) }
}

// The number that document 01 gives a refusal.
pub fn number(why: Refusal) -> u8 {
    match why {
        Refusal::EndsEarly => 1,
        Refusal::NotShortest => 2,
        Refusal::TooLarge => 3,
        Refusal::Version => 4,
        Refusal::Count => 5,
        Refusal::Row => 6,
        Refusal::Intransitive { a: _, b: _, c: _ } => 7,
        Refusal::Field => 8,
        Refusal::PriorityTaken => 9,
        Refusal::Extra => 10,
        Refusal::NotLegal => 11,
        Refusal::NotFitting => 12,
        Refusal::StepBytes => 13,
        Refusal::LastClock => 14,
        Refusal::Missing => 15,
        Refusal::NoRoom => 16,
        Refusal::EventMask => 18,
        Refusal::Frame => 19,
        Refusal::Actuator => 20,
        Refusal::TraceByte => 21,
    }
}

// The leak mark of each thread; refuses with 11.
pub fn marks(t: Table) -> Result<[Mark; 32], Refusal> {
    unless(legal(t), Refusal::NotLegal)?;
    Ok(rank::marks(t, order(t)))
}
