// Writes the script file of a text, from what the passes before have left of its tokens.
#![tactic(auto)]

mod file;

pub use file::write_file;
