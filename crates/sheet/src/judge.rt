// The numbers of a text are judged as the byte form judges them, and what is objected to gets its place in the text.
ghost use Rattle.std.specs.Prelude.{◌≡◌, ◌≢◌, ◌<◌, ◌≤◌, true, false, length, take, ltb, count_by, MatchOption};
ghost use Rattle.basis.specs.Refusals.{number};
ghost use Rattle.reader.specs.Reader.{read_of, accepted, no_table};
ghost use Rattle.sheet.specs.Sheet.{most_numbers, sheet_reading};
ghost use Rattle.sheet.specs.Scan.{fault_read, verdict_by, cut_of, told_cut, scanned, TellsOwn, ends_wrong, cut_bytes, passed_by, joined};

use super::scan::scan;
use super::{Cutting, MOST, Stop};
use basis::Refusal;
use reader::Fault;
use table::Table;
use writer::write_numbers;

// How many numbers end in the first n bytes.
fn numbers_in(bytes: &[u8], n: usize) -> usize
    ensures { (result ≡ count_by (λ b. ltb b 128) (take n bytes.now)) × (result ≤ length bytes.now) }
{
    bytes.iter().take(n).filter(|b| **b < 128).count()
}

// The text's own fault.
fn own_fault(cut: Cutting) -> Option<Fault>
    ensures { MatchOption result ((cut_of cut).refusal ≡ 0) (λ f. TellsOwn (cut_of cut) f) }
{
    match cut.stop? {
        Stop::NoNumber(why) => Some(Fault {
            why,
            place: cut.next,
        }),
        Stop::WrongEnd(fault) => Some(fault),
    }
}

// All numbers pass: the text's own fault, text after the last line, or the table.
fn passed(s: &[u8], cut: Cutting, t: Table) -> Result<Table, Fault>
    requires { (cut_of cut).refusal ≢ 7 }
    ensures { read_of result ≡ passed_by s.now (cut_of cut) (accepted t) }
{
    if let Some(fault) = own_fault(cut) {
        return Err(fault);
    }
    if cut.next < s.len() {
        return Err(Fault {
            why: Refusal::Extra,
            place: cut.next,
        });
    }
    Ok(t)
}

// The wrong end of number k, the last one cut.
fn wrong_end(cut: Cutting, k: usize) -> Option<Fault>
    requires { k < 9223372036854775808 }
    ensures { MatchOption result (ends_wrong (cut_of cut) k ≡ false) (λ f. (ends_wrong (cut_of cut) k ≡ true) × TellsOwn (cut_of cut) f) }
{
    if cut.count != k + 1 {
        return None;
    }
    match cut.stop? {
        Stop::NoNumber(_) => None,
        Stop::WrongEnd(fault) => Some(fault),
    }
}

// What the byte form objects to, with its place in the text. The text's own fault goes before it where numbers are missing, and before a
// gap where the last row's end is wrong.
fn objected(s: &[u8], cut: Cutting, bytes: &[u8], fault: Fault) -> Fault
    requires own { (cut_of cut).refusal ≢ 7 }
    requires met { number fault.why ≡ 1 → (cut_of cut).refusal ≢ 0 }
    ensures { fault_read result ≡ joined s.now (cut_of cut) bytes.now (verdict_by fault.place fault.why) no_table }
{
    let k = numbers_in(bytes, fault.place);
    match fault.why {
        Refusal::EndsEarly => {
            if let Some(own) = own_fault(cut) {
                return own;
            }
        }
        Refusal::Intransitive { a: _, b: _, c: _ } => {
            if let Some(own) = wrong_end(cut, k) {
                return own;
            }
        }
        _ => {}
    }
    Fault {
        why: fault.why,
        place: scan(s, k).next,
    }
}

// What the byte form says of the bytes of the cut numbers, joined with the text's own fault.
fn judge_bytes(s: &[u8], cut: Cutting, bytes: &[u8]) -> Result<Table, Fault>
    requires { (cut_of cut ≡ told_cut (scanned s.now most_numbers)) × (bytes.now ≡ cut_bytes (cut_of cut)) }
    ensures { read_of result ≡ sheet_reading s.now }
{
    match codec::read(bytes) {
        Ok(t) => passed(s, cut, t),
        Err(fault) => Err(objected(s, cut, bytes, fault)),
    }
}

// The bytes of the numbers that were cut, three at most for each, are judged.
pub fn judge(s: &[u8], cut: Cutting) -> Result<Table, Fault>
    requires { cut_of cut ≡ told_cut (scanned s.now most_numbers) }
    ensures { read_of result ≡ sheet_reading s.now }
{
    let mut bytes = [0u8; 3 * MOST];
    let numbers = cut.numbers;
    let n = cut.count;
    let end = write_numbers(&mut bytes, 0, &numbers[..n]);
    judge_bytes(s, cut, &bytes[..end])
}
