// The block as one configuration, seen from a position: the thread tree lies in it all the time, and is taken out as a value only where a part is exchanged.
#![tactic(auto)]

mod part;
mod reading;
mod whole;

pub use part::{fail, fork, pop, push, rejoin, set_cell, top_frame};
pub use reading::{beneath_at, fold_at, frames_before, thread_count};
pub use whole::entry_at;
