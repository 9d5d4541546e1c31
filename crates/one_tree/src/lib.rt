// Question 27 in code, the positions together: do they form one tree, with as many frames as are counted?
#![tactic(auto)]

mod trees;

pub use trees::{frames_add_up, one_tree};
