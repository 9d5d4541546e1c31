// The words of a script file's records, each read off the tokens from the record's first one on.
#![tactic(auto)]

mod nodes;
mod sections;

pub use sections::{begins, row_at};
