// A second reader and a second writer of the comma form, written from the words of document 02 alone. The reader hears the text character
// by character and never looks ahead or back; the writer works from the largest power of ten down. What a number of a table means is
// crate rival_bytes' reading of document 01.
#![tactic(auto)]

mod field;
mod form;
mod judge;

pub use form::{Sheet, write};
pub use judge::read;
