// Tables, states and bytes with one thing wrong, mostly.
#![tactic(auto)]

mod pages;
mod tables;

pub use pages::{ByteDamage, bytes, moved, with_byte, with_len};
pub use tables::{StateDamage, TableDamage, state, table};
