// Question 27 in code, frames and threads: do they fit?
#![tactic(auto)]

mod frames;
mod places;

pub use places::tree_fits;
