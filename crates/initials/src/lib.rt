// The fields of a new object: the initial value of each, by its type.
#![tactic(auto)]

mod initials;

pub use initials::start_fields;
