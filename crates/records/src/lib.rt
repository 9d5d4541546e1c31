// The records of a script file in code: questions 4, 6, 7 and 8.
#![tactic(auto)]

mod names;
mod nodes;

pub use names::check_names;
pub use nodes::{check_interfaces, check_nodes, check_types};
