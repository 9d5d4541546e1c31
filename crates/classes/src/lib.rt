// What a Run asks of a class: the places of its fields, and the records of its methods.
#![tactic(auto)]

mod classes;

pub use classes::{field_place, method_record};
