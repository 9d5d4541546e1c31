// What a move comes to, its exits, the look-up of its target, and the moves that give a value: null, a constant, a variable, a field, a new object.
#![tactic(auto)]

mod fields;
mod steps;
mod targets;
mod values;

pub use fields::read_field;
use machine::Store;
pub use steps::{fails, gives};
pub use targets::target_of;
pub use values::{become_null, become_number, give_value, make_object};

// What a choice comes to: no move is due, it is made, or a store is full for it.
#[derive(Clone, Copy)]
pub enum Effect {
    Still,
    Moved,
    Full(Store),
}

// The field or method `name` of what the variable `target` holds in an environment: of a node, or of the frame of a write or call that waits.
#[derive(Clone, Copy)]
pub struct Member {
    pub env: u16,
    pub target: u16,
    pub name: u16,
}
