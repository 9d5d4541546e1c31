// Question 27 in code, lock frames and shut objects: do they fit?
#![tactic(auto)]

mod locks;

pub use locks::locks_fit;
