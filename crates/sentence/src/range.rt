// Numbers out of their range: 4, 5, 6, 8 and 9.
use super::Cause;
use super::name::{Field, Head, Spot, Subject, spot_of};
use super::page::put;
use super::step::explain_other;
use basis::Refusal;
use sheet::MOST;

impl Cause {
    // The number at an index, 0 behind the last.
    fn number(&self, k: usize) -> u16 {
        self.numbers.get(k).copied().unwrap_or(0)
    }

    // An earlier field of the thread that has number k for this field; 0 where there is none.
    fn earlier(&self, k: usize, field: Field, of: Field) -> u16 {
        let back = (field as usize).saturating_sub(of as usize);
        k.checked_sub(back).map_or(0, |j| self.number(j))
    }
}

// 4.
pub fn explain_version(out: &mut [u8], v: u16) -> usize {
    put(out, format_args!("the version is {v}: there are 1 and 2\n"))
}

// 5.
pub fn explain_count(out: &mut [u8], v: u16, head: Head) -> usize {
    let most = if head == Head::Domains { 16 } else { 32 };
    put(
        out,
        format_args!("{head} is {v}: 1 to {most} are possible\n"),
    )
}

// 5, of a line of more than 16 rows.
pub fn explain_rows(out: &mut [u8]) -> usize {
    put(out, "there are more than 16 rows: 1 to 16 are possible\n")
}

// What a domain's bit counts in a row, 0 where it has none.
fn bit_value(i: usize) -> u64 {
    if i < 16 { 1 << i } else { 0 }
}

// 6: a bit for a domain that the table lacks, or without its own.
pub fn explain_row(out: &mut [u8], c: &Cause, v: u16, i: usize) -> usize {
    let domains = c.numbers[1];
    let last = domains.saturating_sub(1);
    match (domains..16).find(|&j| (v >> j) % 2 == 1) {
        Some(j) => put(
            out,
            format_args!(
                "the row of domain {i} is {v}: it has a bit for domain {j}, and the last domain is {last}\n"
            ),
        ),
        None => {
            let own = bit_value(i);
            put(
                out,
                format_args!(
                    "the row of domain {i} is {v}: it lacks its own bit, which counts {own}\n"
                ),
            )
        }
    }
}

// 8, at number k: by the field and what its range depends on.
pub fn explain_field(out: &mut [u8], c: &Cause, v: u16, k: usize, i: usize, field: Field) -> usize {
    let s = Subject(Spot::Field(i, field));
    let earlier = |of| c.earlier(k, field, of);
    let (how, of) = match field {
        Field::Domain => {
            let last = c.numbers[1].saturating_sub(1);
            return put(
                out,
                format_args!("{s} is {v}, and the last domain is {last}\n"),
            );
        }
        Field::Priority => return put(out, format_args!("{s} {v} is above 255\n")),
        Field::Period | Field::Budget if v == 0 => {
            return put(out, format_args!("{s} is 0, and 1 is the least\n"));
        }
        Field::Period => return put(out, format_args!("{s} {v} is above 60000\n")),
        Field::Kind if v == 1 => {
            let offset = earlier(Field::Offset);
            return put(
                out,
                format_args!("{s} is 1 (event), so its offset has to be 0 and not {offset}\n"),
            );
        }
        Field::Kind => {
            return put(
                out,
                format_args!("{s} is {v}, and there are 0 (periodic) and 1 (event)\n"),
            );
        }
        Field::Deadline if v < earlier(Field::Budget) => ("below", Field::Budget),
        Field::Offset => ("not below", Field::Period),
        Field::Budget | Field::Deadline => ("above", Field::Period),
        Field::Blocking => ("above", Field::Budget),
    };
    let bound = earlier(of);
    put(out, format_args!("{s} {v} is {how} its {of} {bound}\n"))
}

// 9: with the thread that has it already.
pub fn explain_priority(out: &mut [u8], c: &Cause, v: u16, i: usize) -> usize {
    let holder = (0..MOST).find_map(|k| match spot_of(c, k) {
        Spot::Field(t, Field::Priority) if c.number(k) == v => Some(t),
        _ => None,
    });
    match holder {
        Some(t) => put(
            out,
            format_args!("thread {i}: its priority {v} is that of thread {t}\n"),
        ),
        None => explain_other(out, Some(Refusal::PriorityTaken)),
    }
}
