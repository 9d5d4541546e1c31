// The state block in code: its words by area, and the changes that a Run makes to it, where it stands.
#![tactic(auto)]

mod areas;
mod frames;
mod objects;
mod values;

pub use areas::{count, put, put_count, word};
pub use frames::{frame, insert_frame, put_frame, remove_frames};
pub use objects::{add_binding, field, new_object, put_field, set_shut};
pub use values::value;
