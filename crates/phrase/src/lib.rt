// Lines and sentences: a template in which each `#` stands for a number, filled in and put into a lent buffer.
#![tactic(auto)]

ghost use Rattle.std.specs.Prelude.{◌≡◌, ◌+◌, ◌<◌, leb, length, get_or};
ghost use Rattle.writer.specs.Buffer.{Room, Put};
ghost use Rattle.report.specs.Printing.{told, printing, printed};
ghost use Rattle.phrase.specs.Phrase.{piece, used, filled};

use basis::Refusal;
use decimal::{places, put_byte, put_number};

// The number of a place; behind the last there are zeros.
fn number_at(numbers: &[u64], j: usize) -> u64
    ensures { result ≡ get_or numbers.now j 0 }
{
    numbers.get(j).copied().unwrap_or(0)
}

// How many numbers were used up, one character of the template further.
#[tactic(auto, unfolding(crate::specs::Phrase::used, basis::specs::Tests::pick))]
fn used_up(j: usize, b: u8) -> usize
    requires { j < 9223372036854775807 }
    ensures { result ≡ j + used b }
{
    if b == b'#' { j + 1 } else { j }
}

// How many bytes stand for a character of the template.
#[tactic(auto, unfolding(crate::specs::Phrase::piece, basis::specs::Tests::pick))]
fn piece_size(b: u8, n: u64) -> usize
    ensures { result ≡ length (piece b n) }
{
    if b == b'#' { places(n) } else { 1 }
}

// What stands for a character of the template.
#[tactic(auto, unfolding(crate::specs::Phrase::piece, basis::specs::Tests::pick))]
fn put_piece(buf: &mut [u8], at: usize, b: u8, n: u64) -> usize
    requires { Room buf.old at (piece b n) }
    ensures { Put buf.old at buf.new result (piece b n) }
{
    if b == b'#' {
        return put_number(buf, at, n);
    }
    put_byte(buf, at, b)
}

// Whether the filled template takes no more bytes than these. What is left is counted down, for a size could be too large to count up to.
fn is_roomy(room: usize, template: &[u8], numbers: &[u64]) -> bool
    ensures { result ≡ leb (length (filled template.now numbers.now)) room }
{
    let mut left = room;
    let mut j = 0;
    for &b in template {
        let n = number_at(numbers, j);
        let size = piece_size(b, n);
        if left < size {
            return false;
        }
        left -= size;
        j = used_up(j, b);
    }
    true
}

// The filled template, put from the place at on.
pub fn put_filled(buf: &mut [u8], at: usize, template: &[u8], numbers: &[u64]) -> usize
    requires { Room buf.old at (filled template.now numbers.now) }
    ensures { Put buf.old at buf.new result (filled template.now numbers.now) }
{
    let mut k = at;
    let mut j = 0;
    for &b in template {
        let n = number_at(numbers, j);
        k = put_piece(buf, k, b, n);
        j = used_up(j, b);
    }
    k
}

// All of the filled template from the place at on, or nothing of it.
pub fn fill(buf: &mut [u8], at: usize, template: &[u8], numbers: &[u64]) -> Result<usize, Refusal>
    ensures { (told result ≡ printing buf.old at (filled template.now numbers.now)) × (buf.new ≡ printed buf.old at (filled template.now numbers.now)) }
{
    match buf.len().checked_sub(at) {
        Some(room) if is_roomy(room, template, numbers) => Ok(put_filled(
            buf, at, template, numbers,
        )),
        _ => Err(Refusal::NoRoom),
    }
}
