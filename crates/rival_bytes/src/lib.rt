// A second reader and a second writer of the bytes of a table, written from documents 01 and 02 alone. The reader first cuts the bytes
// into numbers, and then judges one number after the other. What a number of a table means serves crate rival_sheet too.
#![tactic(auto)]

mod cut;
mod form;
mod judge;
mod page;

pub use form::{field_of, numbers, row_of, value, write};
pub use judge::{NO_TABLE, judge_number, judge_rows, read, with_number};
pub use page::Page;
