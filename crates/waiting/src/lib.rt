// What a value does at the innermost frame of its thread: a waiting cast, a lock frame, a waiting write.
#![tactic(auto)]

mod waiting;

pub use waiting::{drop_cast, open_lock, store_value};
