// Masks of free variables, node by node, and the mark of a fork whose asyncs share one.
#![tactic(auto)]

mod masks;

pub use masks::{Gathering, mark_of};

// The ranks of a mask, a bit each.
pub const SPAN: usize = 32;
