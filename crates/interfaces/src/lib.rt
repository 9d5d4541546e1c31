// Questions 9 and 10 in code: whether joins agree, and classes have the methods of their interfaces.
#![tactic(auto)]

mod agreement;
mod clashes;
mod covers;

pub use agreement::check_joins;
pub use covers::check_classes;
