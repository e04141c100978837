// Putting pieces of text one after the other, and a whole text where there is room for it.
ghost use Rattle.std.specs.Prelude.{[], ◌∷◌, ◌++◌, length, ◌+◌, ◌≤◌, ◌≡◌};
ghost use Rattle.writer.specs.Buffer.{Room, Put};
ghost use Rattle.decimal.specs.Decimal.{decimal};
ghost use Rattle.report.specs.Lines.{answer, choice, counted_line, step_line};
ghost use Rattle.report.specs.Printing.{told, printing, printed};

use basis::Refusal;
use decimal::{put_byte, put_number};
use walk::Answer;

pub fn put(buf: &mut [u8], at: usize, text: &[u8]) -> usize
    requires { Room buf.old at text.now }
    ensures { Put buf.old at buf.new result text.now }
{
    let end = at + text.len();
    buf[at..end].copy_from_slice(text);
    end
}

fn put_named(buf: &mut [u8], at: usize, letter: u8, i: u8) -> usize
    requires { at + 4 ≤ length buf.old }
    ensures { (result ≤ at + 4) × Put buf.old at buf.new result ((letter ∷ []) ++ decimal i) }
{
    let a = put_byte(buf, at, letter);
    put_number(buf, a, i as u64)
}

// The answer that a byte of a trace stands for.
#[tactic(auto, unfolding(crate::specs::Lines::answer, basis::specs::Tests::pick))]
fn answer_of(b: u8) -> Answer
    ensures { result ≡ answer b }
{
    match b {
        0..=31 => Answer::Ran(b),
        255 => Answer::Idle,
        _ => Answer::IdleFor(b - 32),
    }
}

fn put_choice(buf: &mut [u8], at: usize, a: Answer) -> usize
    requires { at + 4 ≤ length buf.old }
    ensures { (result ≤ at + 4) × Put buf.old at buf.new result (choice a) }
{
    match a {
        Answer::Ran(i) => put_named(buf, at, b'T', i),
        Answer::IdleFor(i) => put_named(buf, at, b'I', i),
        Answer::Idle => put(buf, at, b"--"),
    }
}

// The line of a step, from its byte in the trace.
pub fn put_line(buf: &mut [u8], at: usize, clock: u32, b: u8) -> usize
    requires { at + 16 ≤ length buf.old }
    ensures { (result ≤ at + 16) × Put buf.old at buf.new result (step_line clock (answer b)) }
{
    let a = put_number(buf, at, clock as u64);
    let c = put_byte(buf, a, b' ');
    let d = put_choice(buf, c, answer_of(b));
    put_byte(buf, d, b'\n')
}

// All of the text from the place at on, or nothing of it.
pub fn lay(buf: &mut [u8], at: usize, text: &[u8]) -> Result<usize, Refusal>
    ensures { (told result ≡ printing buf.old at text.now) × (buf.new ≡ printed buf.old at text.now) }
{
    match buf.len().checked_sub(at) {
        Some(room) if text.len() <= room => Ok(put(buf, at, text)),
        _ => Err(Refusal::NoRoom),
    }
}

// A line of a word and a number.
pub fn print_counted(buf: &mut [u8], at: usize, word: &[u8], n: u64) -> Result<usize, Refusal>
    requires { length word.now ≤ 8 }
    ensures { (told result ≡ printing buf.old at (counted_line word.now n)) × (buf.new ≡ printed buf.old at (counted_line word.now n)) }
{
    let mut text = [0u8; 64];
    let a = put(&mut text, 0, word);
    let b = put_number(&mut text, a, n);
    let c = put(&mut text, b, b"\n");
    lay(buf, at, &text[..c])
}
