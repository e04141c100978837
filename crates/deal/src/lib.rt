// Random legal tables, states that fit them, frames, step bytes and masks of events, each worked out from a seed.
#![tactic(auto)]

mod frames;
mod inputs;
mod states;
mod tables;

pub use frames::{any_frame, frame};
pub use inputs::{block_bytes, block_masks, bytes, mask};
pub use states::state;
pub use tables::table;
