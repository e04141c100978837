// The tables of the worked examples: example E of document 01, and the user's story.
#![tactic(auto)]

ghost use Rattle.std.specs.Prelude.{◌≡◌, ◌≤◌, length};
ghost use Rattle.example.specs.Example.{table_of as the-table_of, task as the-task, example as the-example};
ghost use Rattle.example.specs.Story.{story as the-story};

use table::{Table, Thread, no_thread};

// A periodic thread with a period of 10 steps, released at clock 0 and due at the period's end.
fn task(domain: u8, priority: u8, budget: u16, blocking: u16) -> Thread
    ensures { result ≡ the-task domain priority 10 0 budget 10 blocking }
{
    Thread {
        domain,
        priority,
        period: 10,
        offset: 0,
        budget,
        deadline: 10,
        blocking,
        kind: 0,
    }
}

// A table of version 1 with these rows and threads, and zeros in the places that are not in use.
fn table_of(rows: &[u16], threads: &[Thread]) -> Table
    requires { (length rows.now ≤ 16) × (length threads.now ≤ 32) }
    ensures { result ≡ the-table_of rows.now threads.now }
{
    let domains = rows.len() as u8;
    let count = threads.len() as u8;
    let mut all_rows = [0; 16];
    all_rows[..rows.len()].copy_from_slice(rows);
    let mut places = [no_thread(); 32];
    places[..threads.len()].copy_from_slice(threads);
    Table {
        version: 1,
        domains,
        count,
        rows: all_rows,
        threads: places,
    }
}

// Example E: thread 0 is private and stands above thread 1.
pub fn example() -> Table
    ensures { result ≡ the-example }
{
    table_of(&[3, 2], &[task(1, 30, 4, 2), task(0, 20, 3, 0)])
}

// Domains and threads alike: 0 is the pitch loop, 1 the actuator model, 2 the load monitor.
pub fn story() -> Table
    ensures { result ≡ the-story }
{
    table_of(
        &[7, 6, 4],
        &[task(0, 20, 3, 0), task(1, 10, 2, 0), task(2, 30, 4, 3)],
    )
}
