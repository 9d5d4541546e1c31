// Check in code: questions 1 to 15, in order.
#![tactic(auto)]

mod check;

pub use check::verdict_of;
