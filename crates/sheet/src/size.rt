// How many characters a table takes in the comma form.
ghost use Rattle.std.specs.Prelude.{◌≡◌, ◌*◌, ◌≤◌, length, ◌++◌};
ghost use Rattle.decimal.specs.Decimal.{decimal};
ghost use Rattle.writer.specs.Format.{row_numbers, written_fields};
ghost use Rattle.sheet.specs.Text.{ending, line, thread_lines, text};

use decimal::places;
use table::{Table, Thread, fields, fields_in};

#[tactic(auto, unfolding(crate::specs::Text::ending, basis::specs::Tests::pick))]
fn ending_size(last: bool) -> usize
    ensures { (result ≡ length (ending last)) × (result ≤ 2) }
{
    if last {
        return 2;
    }
    1
}

// Five digits at most, and an end.
fn field_size(v: u16, last: bool) -> usize
    ensures { (result ≡ length (decimal v ++ ending last)) × (result ≤ 7) }
{
    let digits = places(v as u64);
    let end = ending_size(last);
    digits + end
}

#[tactic(auto, unfolding(crate::specs::Text::line_part))]
fn line_size(vs: &[u16]) -> usize
    requires { length vs.now ≤ 16 }
    ensures { (result ≡ length (line vs.now)) × (result ≤ 7 * length vs.now) }
{
    let mut k = 0;
    for (i, v) in vs.iter().enumerate() {
        k += field_size(*v, i + 1 == vs.len());
    }
    k
}

fn rows_size(rows: [u16; 16], n: u8) -> usize
    requires { n ≤ 16 }
    ensures { (result ≡ length (line (row_numbers rows n))) × (result ≤ 112) }
{
    line_size(&rows[..n as usize])
}

fn thread_size(version: u8, th: Thread) -> usize
    ensures { (result ≡ length (line (written_fields version th))) × (result ≤ 56) }
{
    let vs = fields(th);
    let n = fields_in(version) as usize;
    line_size(&vs[..n])
}

#[tactic(auto, unfolding(crate::specs::Text::thread_lines))]
fn threads_size(version: u8, threads: [Thread; 32], n: u8) -> usize
    requires { n ≤ 32 }
    ensures { (result ≡ length (thread_lines version threads n)) × (result ≤ 32 * 56) }
{
    let mut k = 0;
    for th in &threads[..n as usize] {
        k += thread_size(version, *th);
    }
    k
}

pub fn text_size(t: Table) -> usize
    requires { (t.domains ≤ 16) × (t.count ≤ 32) }
    ensures { result ≡ length (text t) }
{
    let head = [t.version as u16, t.domains as u16, t.count as u16];
    let a = line_size(&head);
    let rows = t.rows;
    let b = rows_size(rows, t.domains);
    let threads = t.threads;
    let c = threads_size(t.version, threads, t.count);
    a + b + c
}
