// How many bytes a table takes.
ghost use Rattle.std.specs.Prelude.{◌≡◌, ◌*◌, ◌≤◌, length};
ghost use Rattle.table.specs.Threads.{field_count};
ghost use Rattle.numeral.specs.Number.{encode, encode_all};
ghost use Rattle.writer.specs.Format.{written_fields, thread_numbers, bytes};

use table::{Table, Thread, fields, fields_in};

fn number_size(v: u16) -> usize
    ensures { (result ≡ length (encode v)) × (result ≤ 3) }
{
    if v < 128 {
        return 1;
    }
    if v < 16384 {
        return 2;
    }
    3
}

// How many bytes some numbers take: the rows or the fields of a thread, 16 at most.
fn numbers_size(vs: &[u16]) -> usize
    requires { length vs.now ≤ 16 }
    ensures { (result ≡ length (encode_all vs.now)) × (result ≤ 3 * length vs.now) }
{
    let mut k = 0;
    for v in vs {
        k += number_size(*v);
    }
    k
}

fn thread_size(version: u8, th: Thread) -> usize
    ensures { (result ≡ length (encode_all (written_fields version th))) × (result ≤ 3 * field_count) }
{
    let vs = fields(th);
    let n = fields_in(version) as usize;
    numbers_size(&vs[..n])
}

fn threads_size(version: u8, threads: [Thread; 32], n: u8) -> usize
    requires { n ≤ 32 }
    ensures { (result ≡ length (encode_all (thread_numbers version threads n))) × (result ≤ 32 * (3 * field_count)) }
{
    let mut k = 0;
    for th in &threads[..n as usize] {
        k += thread_size(version, *th);
    }
    k
}

pub fn table_size(t: Table) -> usize
    requires { (t.domains ≤ 16) × (t.count ≤ 32) × (t.version ≤ 2) }
    ensures { result ≡ length (bytes t) }
{
    let rows = t.rows;
    let a = numbers_size(&rows[..t.domains as usize]);
    let threads = t.threads;
    let b = threads_size(t.version, threads, t.count);
    3 + a + b
}
