// The proved reader and writer, the host's three calls and crate rival_bytes on one input: the kind of what they say where they
// agree, and none where not.
#![tactic(auto)]

mod host_calls;
mod kind;
mod reading;
mod writing;

pub use kind::Kind;
pub use reading::{Answers, calls, read};
pub use writing::{wanted, write};
