// Questions 21, 26 and 27 in code, the bytes: are those of an area, or of all that is neither object nor binding, in order?
#![tactic(auto)]

mod whole;

pub use whole::{area_in_order, threads_in_order};
