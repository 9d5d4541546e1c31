// The move of a sum.
#![tactic(auto)]

mod sums;

pub use sums::add_variables;
