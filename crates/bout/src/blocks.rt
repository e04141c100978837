// A block of steps, into any place of a record of any room, held against as many single steps of crate rival.
ghost use Rattle.std.specs.Prelude.{◌<◌};

use crate::{Kind, Played};
use basis::Refusal;
use block::Ended;
use dice::{below, seldom};
use rival_table::unless;
use scheduler::{Answer, Frame, Outcome, State};
use table::Table;
use tally::agreed;

// What stands in a record before.
const BEFORE: u8 = 170;

// A block of steps, and the place of its first byte in a record of so much room.
#[derive(Clone, Copy)]
struct Block<'a> {
    table: Table,
    frame: Option<Frame>,
    state: State,
    masks: &'a [u32],
    bytes: &'a [u8],
    room: usize,
    at: usize,
}

// What a block gives, and the record.
#[derive(Clone, Copy, Debug, PartialEq, Eq)]
struct Recorded {
    end: Ended,
    record: [u8; 16],
}

// So many steps of so many threads ask for so many bytes.
fn wanted(steps: usize, count: u8) -> usize {
    steps.wrapping_mul(count as usize)
}

// The bytes of one step; a table without threads has no step.
fn bytes_of_step(t: Table) -> usize
    ensures { 0 < result }
{
    t.count.max(1) as usize
}

// Whether a single step from the first state is refused for a mask.
fn has_bad_mask(b: Block) -> bool {
    let mut steps = b.masks.iter().zip(b.bytes.chunks(bytes_of_step(b.table)));
    steps.any(|(mask, bytes)| {
        let r = rival::step(b.table, b.frame, b.state, *mask, bytes);
        r.outcome == Err(Refusal::EventMask)
    })
}

// A single step without a byte is refused with 11, 19 or 12, or else with 13.
fn judge(b: Block) -> Result<(), Refusal> {
    let r = rival::step(b.table, b.frame, b.state, 0, b"");
    if let Err(why) = r.outcome {
        unless(why == Refusal::StepBytes, why)?;
    }
    let steps = b.masks.len();
    unless(
        b.bytes.len() == wanted(steps, b.table.count),
        Refusal::StepBytes,
    )?;
    unless(!has_bad_mask(b), Refusal::EventMask)?;
    let clock = b.state.clock as usize;
    unless(clock.wrapping_add(steps) <= 1000000000, Refusal::LastClock)?;
    unless(b.at.wrapping_add(steps) <= b.room, Refusal::NoRoom)
}

fn byte_of(o: Outcome) -> u8 {
    match o {
        Err(_) => 254,
        Ok(Answer::Ran(i)) => i,
        Ok(Answer::IdleFor(i)) => i.wrapping_add(32),
        Ok(Answer::Idle) => 255,
    }
}

// Each step from the state that the one before it gave, its byte behind that one's.
fn played(b: Block) -> Recorded {
    let mut state = b.state;
    let mut record = [BEFORE; 16];
    let mut at = b.at;
    for (mask, bytes) in b.masks.iter().zip(b.bytes.chunks(bytes_of_step(b.table))) {
        let r = rival::step(b.table, b.frame, state, *mask, bytes);
        record[at % 16] = byte_of(r.outcome);
        state = r.state;
        at = at.wrapping_add(1);
    }
    Recorded {
        end: Ended {
            outcome: Ok(at),
            state,
        },
        record,
    }
}

fn theirs(b: Block) -> Recorded {
    match judge(b) {
        Ok(()) => played(b),
        Err(why) => Recorded {
            end: Ended {
                outcome: Err(why),
                state: b.state,
            },
            record: [BEFORE; 16],
        },
    }
}

// The proved side, lent a part from its front, or a record and a place in it.
fn ours(b: Block) -> Recorded {
    let mut record = [BEFORE; 16];
    let part = &mut record[..b.room.min(16)];
    let end = match (b.frame, b.at) {
        (Some(f), 0) => block::run_in_frame(b.table, f, b.state, b.masks, b.bytes, part),
        (Some(f), at) => block::run_at_in_frame(b.table, f, b.state, b.masks, b.bytes, part, at),
        (None, 0) => block::run(b.table, b.state, b.masks, b.bytes, part),
        (None, at) => block::run_at(b.table, b.state, b.masks, b.bytes, part, at),
    };
    Recorded { end, record }
}

fn kind_of(b: Block, end: Ended) -> Kind {
    match end.outcome {
        Err(why) => Kind::BlockRefused(why),
        Ok(_) if b.masks.len() == 0 => Kind::NoSteps,
        Ok(_) => Kind::Block {
            framed: b.frame.is_some(),
        },
    }
}

fn compared(b: Block) -> Played {
    let got = ours(b);
    Played {
        kind: agreed(got, theirs(b), |got| kind_of(b, got.end)),
        state: got.end.state,
    }
}

// A block of up to eight steps, mostly with one byte for each thread and step and one mask a step, in a frame or without one, into any
// place of a record.
pub fn steps_in_block(
    seed: u64,
    t: Table,
    f: Frame,
    s: State,
    masks: &[u32],
    bytes: &[u8],
) -> Played {
    let steps = below(seed, 70, 9u16) as usize;
    let long = wanted(steps, t.count);
    let n = match below(seed, 71, 16u16) {
        0 => long.wrapping_add(1),
        1 => below(seed, 72, 40u16) as usize,
        _ => long,
    };
    let steps = if seldom(seed, 76, 16) {
        below(seed, 77, 9u16) as usize
    } else {
        steps
    };
    let masks = &masks[..masks.len().min(steps)];
    let at = below(seed, 73, 5u16) as usize;
    let end = at.wrapping_add(masks.len());
    let room = match below(seed, 74, 12u16) {
        0 => end.wrapping_sub(1) % 17,
        1 => at / 2,
        2 => end % 17,
        _ => 16,
    };
    compared(Block {
        table: t,
        frame: seldom(seed, 75, 2).then_some(f),
        state: s,
        masks,
        bytes: &bytes[..bytes.len().min(n)],
        room,
        at,
    })
}
