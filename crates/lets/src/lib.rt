// What a value does at a waiting let: it is bound.
#![tactic(auto)]

mod lets;

pub use lets::bind_value;
use machine::Value;

// A value at a waiting let: of the variable `name`, with the node of its first part and that of its body, in the environment of the frame.
#[derive(Clone, Copy)]
pub struct WaitingLet {
    pub value: Value,
    pub env: u16,
    pub name: u16,
    pub first: u16,
    pub body: u16,
}
