// Moves that leave a frame, and those of forks and joins.
#![tactic(auto)]

mod control;

pub use control::{become_join, fold_join, leave_frame};
