// Questions 21 and 26 in code, the values: do those of objects and bindings fit?
#![tactic(auto)]

mod stores;
mod wants;

pub use stores::{bindings_fit, objects_fit, value_fits};
pub use wants::{meets, null_meets};
