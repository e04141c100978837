// Putting the text of a table into a lent buffer, line by line.
ghost use Rattle.std.specs.Prelude.{◌≤◌, ◌++◌};
ghost use Rattle.writer.specs.Buffer.{Room, Put};
ghost use Rattle.writer.specs.Format.{row_numbers, written_fields};
ghost use Rattle.decimal.specs.Decimal.{decimal};
ghost use Rattle.sheet.specs.Text.{ending, line, thread_lines, text};

use decimal::{put_byte, put_number};
use table::{Table, Thread, fields, fields_in};

// CRLF behind the last field of a line, a comma behind any other.
fn put_ending(buf: &mut [u8], at: usize, last: bool) -> usize
    requires { Room buf.old at (ending last) }
    ensures { Put buf.old at buf.new result (ending last) }
{
    if last {
        let a = put_byte(buf, at, 13);
        return put_byte(buf, a, 10);
    }
    put_byte(buf, at, 44)
}

fn put_field(buf: &mut [u8], at: usize, v: u16, last: bool) -> usize
    requires { Room buf.old at (decimal v ++ ending last) }
    ensures { Put buf.old at buf.new result (decimal v ++ ending last) }
{
    let a = put_number(buf, at, v as u64);
    put_ending(buf, a, last)
}

fn put_line(buf: &mut [u8], at: usize, vs: &[u16]) -> usize
    requires { Room buf.old at (line vs.now) }
    ensures { Put buf.old at buf.new result (line vs.now) }
{
    let mut k = at;
    for (i, v) in vs.iter().enumerate() {
        k = put_field(buf, k, *v, i + 1 == vs.len());
    }
    k
}

fn put_rows(buf: &mut [u8], at: usize, rows: [u16; 16], n: u8) -> usize
    requires { (n ≤ 16) × Room buf.old at (line (row_numbers rows n)) }
    ensures { Put buf.old at buf.new result (line (row_numbers rows n)) }
{
    put_line(buf, at, &rows[..n as usize])
}

fn put_thread(buf: &mut [u8], at: usize, version: u8, th: Thread) -> usize
    requires { Room buf.old at (line (written_fields version th)) }
    ensures { Put buf.old at buf.new result (line (written_fields version th)) }
{
    let vs = fields(th);
    let n = fields_in(version) as usize;
    put_line(buf, at, &vs[..n])
}

fn put_threads(buf: &mut [u8], at: usize, version: u8, threads: [Thread; 32], n: u8) -> usize
    requires { (n ≤ 32) × Room buf.old at (thread_lines version threads n) }
    ensures { Put buf.old at buf.new result (thread_lines version threads n) }
{
    let mut k = at;
    for th in &threads[..n as usize] {
        k = put_thread(buf, k, version, *th);
    }
    k
}

pub fn put_text(buf: &mut [u8], at: usize, t: Table) -> usize
    requires { (t.domains ≤ 16) × (t.count ≤ 32) × Room buf.old at (text t) }
    ensures { Put buf.old at buf.new result (text t) }
{
    let head = [t.version as u16, t.domains as u16, t.count as u16];
    let a = put_line(buf, at, &head);
    let rows = t.rows;
    let b = put_rows(buf, a, rows, t.domains);
    let threads = t.threads;
    put_threads(buf, b, t.version, threads, t.count)
}
