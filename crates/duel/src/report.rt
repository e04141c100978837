// What was dealt, and what is printed of all that was counted.
use basis::Refusal;
use bout::Kind;
use spoil::{StateDamage, TableDamage};
use tally::{Tally, WRONG, line};

// A table that is legal, a damaged one, or a damaged state.
#[derive(Clone, Copy, Debug, PartialEq, Eq)]
pub enum Dealt {
    Legal,
    Table(TableDamage),
    State(StateDamage),
}

// Where it is counted.
impl From<Dealt> for u32 {
    fn from(dealt: Dealt) -> u32 {
        match dealt {
            Dealt::Legal => 0,
            Dealt::Table(damage) => 20 + damage as u32,
            Dealt::State(damage) => 30 + damage as u32,
        }
    }
}

fn in_frame(tally: &Tally) {
    line(
        tally,
        Kind::Ran { framed: true },
        b" steps in a frame of a thread\n",
    );
    line(
        tally,
        Kind::IdleFor { framed: true },
        b" steps in a frame idle for a thread\n",
    );
    line(
        tally,
        Kind::Idle { framed: true },
        b" steps in a frame idle\n",
    );
}

fn steps(tally: &Tally) {
    line(tally, Dealt::Legal, b" legal tables\n");
    line(tally, Kind::Ran { framed: false }, b" steps of a thread\n");
    line(
        tally,
        Kind::IdleFor { framed: false },
        b" steps idle for a thread\n",
    );
    line(tally, Kind::Idle { framed: false }, b" steps idle\n");
    in_frame(tally);
    line(
        tally,
        Kind::Refused(Refusal::NotLegal),
        b" steps refused with 11\n",
    );
    line(
        tally,
        Kind::Refused(Refusal::NotFitting),
        b" steps refused with 12\n",
    );
    line(
        tally,
        Kind::Refused(Refusal::StepBytes),
        b" steps refused with 13\n",
    );
    line(
        tally,
        Kind::Refused(Refusal::LastClock),
        b" steps refused with 14\n",
    );
    line(
        tally,
        Kind::Refused(Refusal::EventMask),
        b" steps refused with 18\n",
    );
    line(
        tally,
        Kind::Refused(Refusal::Frame),
        b" steps refused with 19\n",
    );
    line(tally, Kind::Released, b" events that released a thread\n");
    line(tally, Kind::Lost, b" events that came too early\n");
}

fn blocks(tally: &Tally) {
    line(tally, Kind::Block { framed: false }, b" blocks of steps\n");
    line(
        tally,
        Kind::Block { framed: true },
        b" blocks of steps in a frame\n",
    );
    line(tally, Kind::NoSteps, b" blocks of no steps\n");
    line(
        tally,
        Kind::BlockRefused(Refusal::NotLegal),
        b" blocks refused with 11\n",
    );
    line(
        tally,
        Kind::BlockRefused(Refusal::NotFitting),
        b" blocks refused with 12\n",
    );
    line(
        tally,
        Kind::BlockRefused(Refusal::StepBytes),
        b" blocks refused with 13\n",
    );
    line(
        tally,
        Kind::BlockRefused(Refusal::LastClock),
        b" blocks refused with 14\n",
    );
    line(
        tally,
        Kind::BlockRefused(Refusal::NoRoom),
        b" blocks refused with 16\n",
    );
    line(
        tally,
        Kind::BlockRefused(Refusal::EventMask),
        b" blocks refused with 18\n",
    );
    line(
        tally,
        Kind::BlockRefused(Refusal::Frame),
        b" blocks refused with 19\n",
    );
}

fn table_line(tally: &Tally, damage: TableDamage, text: &[u8]) {
    line(tally, Dealt::Table(damage), text);
}

fn state_line(tally: &Tally, damage: StateDamage, text: &[u8]) {
    line(tally, Dealt::State(damage), text);
}

fn damage(tally: &Tally) {
    table_line(
        tally,
        TableDamage::Domains,
        b" tables with a wrong number of domains\n",
    );
    table_line(
        tally,
        TableDamage::Threads,
        b" tables with a wrong number of threads\n",
    );
    table_line(
        tally,
        TableDamage::RowBits,
        b" tables with a bit or two of a row turned\n",
    );
    table_line(
        tally,
        TableDamage::UnusedRow,
        b" tables with an unused row not zero\n",
    );
    table_line(
        tally,
        TableDamage::PriorityTwice,
        b" tables with a priority twice\n",
    );
    table_line(
        tally,
        TableDamage::PastRange,
        b" tables with a field just past its range\n",
    );
    table_line(
        tally,
        TableDamage::AnyValue,
        b" tables with a field of any value\n",
    );
    table_line(
        tally,
        TableDamage::UnusedPlace,
        b" tables with an unused place not zero\n",
    );
    table_line(
        tally,
        TableDamage::Misfit,
        b" tables with a version or a kind that there is not\n",
    );
    state_line(
        tally,
        StateDamage::Rest,
        b" states with a rest above its budget\n",
    );
    state_line(
        tally,
        StateDamage::Count,
        b" states with a count above the clock\n",
    );
    state_line(
        tally,
        StateDamage::PastClock,
        b" states with a clock above 1,000,000,000\n",
    );
    state_line(
        tally,
        StateDamage::LastClock,
        b" states with a clock of 1,000,000,000\n",
    );
    state_line(
        tally,
        StateDamage::UnusedPlace,
        b" states with an unused place not zero\n",
    );
    state_line(
        tally,
        StateDamage::Since,
        b" states with too many steps since a release\n",
    );
}

pub fn report(tally: &Tally) {
    steps(tally);
    blocks(tally);
    damage(tally);
    line(tally, Kind::Started, b" fresh states\n");
    line(tally, Kind::Unstarted, b" fresh states refused\n");
    line(tally, Kind::Marked, b" legal tables with a mark\n");
    line(tally, Kind::Unmarked, b" legal tables without one\n");
    line(tally, Kind::NotLegal, b" marks refused\n");
    line(tally, Kind::Seen, b" threads shown to a domain\n");
    line(tally, Kind::Gap, b" gaps shown to a domain\n");
    line(tally, Kind::Shown, b" states shown to a domain\n");
    line(tally, Kind::Unshown, b" views refused\n");
    line(tally, WRONG, b" disagreements\n");
}
