// Members in code: the fields and methods of a type, and the tables that look-ups are lent.
#![tactic(auto)]

mod code;
mod lookup;
mod starts;

pub use code::Code;
pub use lookup::{field_type, find_own, meanings, method_of, types_at};
pub use starts::fill_starts;

// The types of a method: of its parameter and its result.
#[derive(Clone, Copy, PartialEq, Eq)]
pub struct Types {
    pub param: u16,
    pub result: u16,
}
