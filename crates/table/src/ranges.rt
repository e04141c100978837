// The range of each number of a table, said once for the reader and for the test of a table that is handed in.
ghost use Rattle.std.specs.Prelude.{◌≡◌};
ghost use Rattle.table.specs.Threads.{none, fields as TheFields, fields_in, thread_of, Narrow};
ghost use Rattle.table.specs.Ranges.{within, kinds, field_range, field_ranges};

use super::{FIELDS, Range, Thread};

#[tactic(auto, unfolding(crate::specs::Ranges::within))]
pub fn in_range(r: Range, v: u16) -> bool
    ensures { result ≡ within r v }
{
    r.low <= v && u32::from(v) < r.below
}

// A thread's fields, in order.
pub fn fields(th: Thread) -> [u16; FIELDS]
    ensures { result ≡ TheFields th }
{
    [
        th.domain as u16,
        th.priority as u16,
        th.period,
        th.offset,
        th.budget,
        th.deadline,
        th.blocking,
        th.kind as u16,
    ]
}

// How many fields of a thread stand in the bytes of a version.
#[tactic(auto, unfolding(crate::specs::Threads::fields_in, basis::specs::Tests::pick))]
pub fn fields_in(version: u8) -> u8
    ensures { result ≡ fields_in version }
{
    if version == 1 { 7 } else { 8 }
}

// The thread that has these fields.
pub fn make_thread(fields: [u16; FIELDS]) -> Thread
    requires { Narrow fields }
    ensures { result ≡ thread_of fields }
{
    Thread {
        domain: fields[0] as u8,
        priority: fields[1] as u8,
        period: fields[2],
        offset: fields[3],
        budget: fields[4],
        deadline: fields[5],
        blocking: fields[6],
        kind: fields[7] as u8,
    }
}

// What stands in a thread place that is not in use.
pub fn no_thread() -> Thread
    ensures { result ≡ none }
{
    make_thread([0; FIELDS])
}

// How many kinds a thread may be of.
#[tactic(auto, unfolding(basis::specs::Tests::pick))]
fn kinds_of(version: u8, offset: u16) -> u32
    ensures { result ≡ kinds version offset }
{
    if version == 2 && offset == 0 { 2 } else { 1 }
}

// The range of each field in a table of this version and so many domains, by the thread's period, offset and budget.
pub fn field_ranges(
    version: u8,
    domains: u8,
    period: u16,
    offset: u16,
    budget: u16,
) -> [Range; FIELDS]
    ensures { result ≡ field_ranges version domains period offset budget }
{
    let kinds = kinds_of(version, offset);
    let after_period = period as u32 + 1;
    [
        Range {
            low: 0,
            below: domains as u32,
        },
        Range { low: 0, below: 256 },
        Range {
            low: 1,
            below: 60001,
        },
        Range {
            low: 0,
            below: period as u32,
        },
        Range {
            low: 1,
            below: after_period,
        },
        Range {
            low: budget,
            below: after_period,
        },
        Range {
            low: 0,
            below: budget as u32 + 1,
        },
        Range {
            low: 0,
            below: kinds,
        },
    ]
}

// The range of field k in a table of this version and so many domains, by the fields before it.
#[tactic(auto, unfolding(crate::specs::Ranges::field_range))]
pub fn field_range(version: u8, domains: u8, fields: [u16; FIELDS], k: u8) -> Range
    ensures { result ≡ field_range version domains fields k }
{
    let ranges = field_ranges(version, domains, fields[2], fields[3], fields[4]);
    ranges
        .get(k as usize)
        .copied()
        .unwrap_or(Range { low: 0, below: 0 })
}
