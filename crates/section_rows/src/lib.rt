// The rows of the sections, appended to the file one after another; and how many nodes each expression has.
#![tactic(auto)]

mod append;
mod parts;
mod sizes;
mod source;
mod whole;

pub use sizes::{count_nodes, fill_sizes};
pub use source::{Records, Source};
pub use whole::{append_expressions, append_records};
