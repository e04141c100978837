// The calls on one table: check, bytes, sheet, plan.
use super::say::{Stop, Stream, say, write};
use super::tables::read_table;
use super::words::want_words;
use basis::Refusal;
use std::rt::Runtime;
use table::Table;

pub fn say_legal(rt: &(impl Print + Eprint), t: &Table) {
    say(
        rt,
        format_args!("legal {} {} {}\n", t.version, t.domains, t.count),
    );
}

// What a writer puts to the front of 4,096 bytes: 659 bytes and 1,386 characters at most.
pub fn say_written<F: FnOnce(&mut [u8]) -> Result<usize, Refusal>>(
    rt: &(impl Print + Eprint),
    writer: F,
)
    requires { F.IsAlwaysCallable writer }
{
    let mut out = [0u8; 4096];
    if let Ok(next) = writer(&mut out) {
        if let Some(written) = out.get(..next) {
            let _ = write(rt, written);
        }
    }
}

// The table of a file is judged, and the call answered.
pub fn desk<R: Runtime, F: FnOnce(&Table)>(rt: &R, to: Stream, answer: F) -> Result<(), Stop>
    requires { F.IsAlwaysCallable answer }
{
    want_words(rt, 2)?;
    let given = read_table(rt, to, || Ok(()))?;
    answer(&given.table);
    Ok(())
}
