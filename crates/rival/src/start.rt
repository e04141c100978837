// The state before the first step.
use basis::Refusal;
use rival_table::{legal, unless};
use scheduler::{Progress, State};
use table::{Table, Thread};

pub const NOTHING: Progress = Progress {
    rest: 0,
    execution: 0,
    finished: false,
    ran: 0,
    since: 0,
};

// A thread that events release counts as released P steps ago: the first event finds it ready.
fn start(f: Thread) -> Progress {
    Progress {
        since: if f.kind == 1 { f.period } else { 0 },
        ..NOTHING
    }
}

// Refuses with 11.
pub fn fresh(t: Table) -> Result<State, Refusal> {
    unless(legal(t), Refusal::NotLegal)?;
    Ok(State {
        clock: 0,
        threads: t.threads.map(start),
    })
}
