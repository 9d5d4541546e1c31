// Questions 21, 26 and 27 in code, the records: is each in order by itself, and are words without a meaning 0?
#![tactic(auto)]

mod blanks;
mod records;
mod values;

pub use blanks::{blank, zeros};
pub use records::records_in_order;
