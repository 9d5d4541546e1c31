// The state block: how a configuration lies in its bytes. Definitions and theorems, and the enum and the numbers that they share with the code.
#![tactic(auto)]

mod layout;

pub use layout::{Layout, begins_of, count_word_of, most_of, width_of};

// The areas of a block, in the order in which they lie.
#[derive(Clone, Copy)]
pub enum Area {
    Objects,
    Bindings,
    Positions,
    Frames,
}
