// The host's calls that name a thread, held against the second reader, its marks and its bounds.
use crate::Kind;
use basis::Refusal;
use reader::Fault;
use rival_table::{number, unless};
use table::Table;
use tally::agreed;

// What a thread has, if anything.
type Found = Result<Option<u16>, Refusal>;

// What a thread of the table that is read has; refuses with the reader's number, then 15.
fn find<Find: Fn(Table, u8) -> Found>(read: Result<Table, Fault>, thread: u32, find: Find) -> Found
    requires { Find.IsAlwaysCallable find }
{
    let t = read.map_err(|fault| fault.why)?;
    unless(thread < t.count as u32, Refusal::Missing)?;
    find(t, (thread % 256) as u8)
}

// The number that the host is told, with one for nothing, and 100,000 and the number of a refusal.
fn told(found: Found, nothing: u32) -> u32 {
    match found {
        Ok(Some(n)) => n as u32,
        Ok(None) => nothing,
        Err(why) => 100000 + number(why) as u32,
    }
}

// The kind of what is found: one for something, one for nothing, or that of a refusal.
fn kind_of(found: Found, something: Kind, nothing: Kind) -> Kind {
    match found {
        Ok(Some(_)) => something,
        Ok(None) => nothing,
        Err(Refusal::Missing) => Kind::NoThread,
        Err(_) => Kind::NotRead,
    }
}

fn mark_of(t: Table, i: u8) -> Found {
    let marks = rival_table::marks(t)?;
    Ok(marks[i as usize % 32].map(u16::from))
}

pub fn mark(read: Result<Table, Fault>, bytes: &[u8], thread: u32) -> Option<Kind> {
    let found = find(read, thread, mark_of);
    agreed(host::mikuzerao_mark(bytes, thread), told(found, 255), |_| {
        kind_of(found, Kind::Marked, Kind::Unmarked)
    })
}

// The plain search of a table with a long period takes long, so only some are asked for.
pub fn bound(read: Result<Table, Fault>, bytes: &[u8], thread: u32) -> Option<Kind> {
    if read.is_ok_and(rival_bounds::is_long) && thread % 16 != 0 {
        return Some(Kind::NotAsked);
    }
    let found = find(read, thread, rival_bounds::bound);
    agreed(host::mikuzerao_bound(bytes, thread), told(found, 0), |_| {
        kind_of(found, Kind::Bound, Kind::NoBound)
    })
}
