// Putting a table's numbers into a lent buffer, one after the other.
ghost use Rattle.std.specs.Prelude.{◌≡◌, ◌≤◌};
ghost use Rattle.numeral.specs.Number.{encode, encode_all};
ghost use Rattle.writer.specs.Format.{written_fields, thread_numbers, bytes};
ghost use Rattle.writer.specs.Buffer.{Room, Put};

use table::{Table, Thread, fields, fields_in};

fn write_number(buf: &mut [u8], at: usize, v: u16) -> usize
    requires { Room buf.old at (encode v) }
    ensures { Put buf.old at buf.new result (encode v) }
{
    if v < 128 {
        buf[at] = v as u8;
        return at + 1;
    }
    buf[at] = (128 + v % 128) as u8;
    let second = at + 1;
    if v < 16384 {
        buf[second] = (v / 128) as u8;
        return second + 1;
    }
    buf[second] = (128 + v / 128 % 128) as u8;
    let third = second + 1;
    buf[third] = (v / 16384) as u8;
    third + 1
}

pub fn write_numbers(buf: &mut [u8], at: usize, vs: &[u16]) -> usize
    requires { Room buf.old at (encode_all vs.now) }
    ensures { Put buf.old at buf.new result (encode_all vs.now) }
{
    let mut k = at;
    for v in vs {
        k = write_number(buf, k, *v);
    }
    k
}

fn write_thread(buf: &mut [u8], at: usize, version: u8, th: Thread) -> usize
    requires { Room buf.old at (encode_all (written_fields version th)) }
    ensures { Put buf.old at buf.new result (encode_all (written_fields version th)) }
{
    let vs = fields(th);
    let n = fields_in(version) as usize;
    write_numbers(buf, at, &vs[..n])
}

fn write_threads(buf: &mut [u8], at: usize, version: u8, threads: [Thread; 32], n: u8) -> usize
    requires { (n ≤ 32) × Room buf.old at (encode_all (thread_numbers version threads n)) }
    ensures { Put buf.old at buf.new result (encode_all (thread_numbers version threads n)) }
{
    let mut k = at;
    for th in &threads[..n as usize] {
        k = write_thread(buf, k, version, *th);
    }
    k
}

pub fn put_table(buf: &mut [u8], at: usize, t: Table) -> usize
    requires { (t.domains ≤ 16) × (t.count ≤ 32) × Room buf.old at (bytes t) }
    ensures { Put buf.old at buf.new result (bytes t) }
{
    let head = [t.version as u16, t.domains as u16, t.count as u16];
    let a = write_numbers(buf, at, &head);
    let rows = t.rows;
    let b = write_numbers(buf, a, &rows[..t.domains as usize]);
    let threads = t.threads;
    write_threads(buf, b, t.version, threads, t.count)
}
