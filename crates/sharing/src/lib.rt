// Question 15 in code: which forks have asyncs that share a variable.
#![tactic(auto)]

mod forks;

pub use forks::fill_forks;
