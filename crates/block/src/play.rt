// A stretch of steps over one list of threads, the state in place: nothing large is passed or copied in the loop, its fields are stored one
// by one, and the arms of its branches do not meet. The tick comes with the release: no walk reads or changes what ages.
ghost use Rattle.std.specs.Prelude.{◌≡◌, ◌+◌, ◌*◌, ◌≤◌, length};
ghost use Rattle.std.proofs.lemmas.List.Edits.{sets};
ghost use Rattle.state.specs.State.{last_clock, Fits};
ghost use Rattle.state.specs.Given.{Usable};
ghost use Rattle.order.specs.Order.{ranked, Below};
ghost use Rattle.walk.specs.Step.{advance};
ghost use Rattle.block.specs.Block.{inputs, end_of, trace_of};

use super::thread::{
    Effect, clock_effect, event_effect, execution_budget, heard, place, since_after, would_run,
};
use order::Ranks;
use state::{State, has_event};
use table::{Mark, Table};

// The steps of a block from one of them on, as many as are named, each with one byte in the record.
pub fn play(
    t: Table,
    order: Ranks,
    marks: [Mark; 32],
    s: State,
    masks: &[u32],
    bytes: &[u8],
    from: usize,
    steps: usize,
    out: &mut [u8],
) -> State
    requires usable { Usable t × (order.count ≤ 32) × Below t.count (ranked order) }
    requires fits { Fits t s × (s.clock + steps ≤ last_clock) × (length bytes.now ≡ length masks.now * t.count) }
    requires steps_in_bounds { (from + steps ≤ length masks.now) × (from + steps ≤ length out.old) }
    ensures { (result ≡ end_of (advance t marks (ranked order)) (inputs t masks.now bytes.now from steps) s) × (out.new ≡ sets out.old from (trace_of (advance t marks (ranked order)) (inputs t masks.now bytes.now from steps) s)) }
{
    let count = t.count as usize;
    let ranked = order.count as usize;
    let mut next = s;
    let mut at = from * count;
    for k in 0..steps {
        let here = from + k;
        let mask = masks[here];
        let end = at + count;
        let now = &bytes[at..end];
        let clock = next.clock;
        for i in 0..count {
            let th = t.threads[i];
            if th.kind == 1 {
                let since = next.threads[i].since;
                match event_effect(th, has_event(mask, i as u8), since) {
                    Effect::Refill => {
                        next.threads[i].rest = th.budget;
                        next.threads[i].execution = execution_budget(th);
                        next.threads[i].finished = false;
                        next.threads[i].since = since_after(th, 0);
                    }
                    Effect::Empty => {
                        next.threads[i].rest = 0;
                        next.threads[i].execution = 0;
                        next.threads[i].since = since_after(th, since);
                    }
                    Effect::Stay => next.threads[i].since = since_after(th, since),
                }
            } else {
                match clock_effect(th, clock) {
                    Effect::Refill => {
                        next.threads[i].rest = th.budget;
                        next.threads[i].execution = execution_budget(th);
                        next.threads[i].finished = false;
                        next.threads[i].since = 0;
                    }
                    Effect::Empty => {
                        next.threads[i].rest = 0;
                        next.threads[i].execution = 0;
                    }
                    Effect::Stay => {}
                }
            }
        }
        next.clock = clock + 1;
        let mut answer: u8 = 255;
        for r in 0..ranked {
            let i = order.at[r];
            let p = place(i);
            let rest = next.threads[p].rest;
            if rest == 0 {
                continue;
            }
            let b = now[p];
            let finished = next.threads[p].finished;
            let execution = next.threads[p].execution;
            if would_run(finished, execution, b) {
                let ran = next.threads[p].ran;
                next.threads[p].rest = rest - 1;
                next.threads[p].execution = execution - 1;
                next.threads[p].ran = ran + 1;
                answer = i;
                break;
            }
            next.threads[p].rest = rest - 1;
            next.threads[p].finished = heard(finished, b);
            if marks[p].is_some() {
                answer = 32 + i;
                break;
            }
        }
        out[here] = answer;
        at = end;
    }
    next
}
