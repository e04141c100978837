// Both schedulers, the proved one and crate rival, on one input: the kind of what they say where they agree, and none where not.
#![tactic(auto)]

mod blocks;
mod kind;
mod play;
mod views;

pub use blocks::steps_in_block;
pub use kind::Kind;
pub use play::{Played, event, fresh, marks, some_length, step};
pub use views::{shown, shown_state};
