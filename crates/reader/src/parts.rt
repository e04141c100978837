// The parts of a table, each read with the cursor: rows, fields, threads, the end.
ghost use Rattle.std.specs.Prelude.{◌≡◌, ◌≤◌};
ghost use Rattle.table.specs.Threads.{fields_in};
ghost use Rattle.reader.specs.Reader.{standing, Stands, HasRows, HasFields, HasThreads, row_from, rows_from, free, field_from, fields_from, threads_from, ended, read_of};

use super::steps::{judge, next_number, read_ranged};
use super::{Cursor, Fault};
use basis::Refusal;
use flow::row_passes;
use table::{FIELDS, Table, Thread, field_range, fields_in, is_taken, make_thread, no_thread};

fn read_row(s: &[u8], domains: u8, i: u8, c: Cursor) -> Result<Cursor, Fault>
    ensures { Stands result (row_from s.now domains i (standing c)) }
{
    let n = next_number(s, c)?;
    let ok = row_passes(domains, i, n.value);
    judge(n, ok, Refusal::Row)
}

pub fn read_rows(s: &[u8], domains: u8, c: Cursor) -> Result<(Cursor, [u16; 16]), Fault>
    requires { domains ≤ 16 }
    ensures { HasRows result (rows_from s.now domains (standing c) domains) }
{
    let mut rows = [0u16; 16];
    let mut k = c;
    // by its number, since a row is judged by its own domain: an iterator over the array is no plainer
    for i in 0..domains {
        k = read_row(s, domains, i, k)?;
        rows[i as usize] = k.value;
    }
    Ok((k, rows))
}

// Whether field k of thread i may have the value v: only a priority can be taken.
fn is_free(threads: [Thread; 32], i: u8, k: u8, v: u16) -> bool
    requires { i ≤ 32 }
    ensures { result ≡ free threads i k v }
{
    if k != 1 {
        return true;
    }
    !is_taken(threads, i, v)
}

fn read_field(
    s: &[u8],
    version: u8,
    domains: u8,
    threads: [Thread; 32],
    i: u8,
    fields: [u16; FIELDS],
    k: u8,
    c: Cursor,
) -> Result<Cursor, Fault>
    requires { i ≤ 32 }
    ensures { Stands result (field_from s.now version domains threads i fields k (standing c)) }
{
    let range = field_range(version, domains, fields, k);
    let f = read_ranged(s, c, range, Refusal::Field)?;
    let ok = is_free(threads, i, k, f.value);
    judge(f, ok, Refusal::PriorityTaken)
}

fn read_fields(
    s: &[u8],
    version: u8,
    domains: u8,
    threads: [Thread; 32],
    i: u8,
    c: Cursor,
) -> Result<(Cursor, [u16; FIELDS]), Fault>
    requires { i ≤ 32 }
    ensures { HasFields result (fields_from s.now version domains threads i (standing c) (fields_in version)) }
{
    let mut fields = [0u16; FIELDS];
    let n = fields_in(version);
    let mut at = c;
    // by its number, since the range of a field goes by the fields so far, which an iterator over them would hold
    for k in 0..n {
        at = read_field(s, version, domains, threads, i, fields, k, at)?;
        fields[k as usize] = at.value;
    }
    Ok((at, fields))
}

fn read_threads(
    s: &[u8],
    version: u8,
    domains: u8,
    c: Cursor,
    count: u8,
) -> Result<(Cursor, [Thread; 32]), Fault>
    requires { count ≤ 32 }
    ensures { HasThreads result (threads_from s.now version domains (standing c) count) }
{
    let z = no_thread();
    let mut threads = [z; 32];
    let mut k = c;
    // by its number, since a thread is judged by those so far, which an iterator over them would hold
    for i in 0..count {
        let (next, fields) = read_fields(s, version, domains, threads, i, k)?;
        k = next;
        threads[i as usize] = make_thread(fields);
    }
    Ok((k, threads))
}

// The threads, and the end of the bytes.
pub fn read_rest(
    s: &[u8],
    version: u8,
    domains: u8,
    count: u8,
    rows: [u16; 16],
    c: Cursor,
) -> Result<Table, Fault>
    requires { count ≤ 32 }
    ensures { read_of result ≡ ended s.now version domains count rows (threads_from s.now version domains (standing c) count) }
{
    let (cursor, threads) = read_threads(s, version, domains, c, count)?;
    if cursor.next < s.len() {
        return Err(Fault {
            why: Refusal::Extra,
            place: cursor.next,
        });
    }
    Ok(Table {
        version,
        domains,
        count,
        rows,
        threads,
    })
}
