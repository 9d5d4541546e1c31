// What a choice comes to.
#![tactic(auto)]

mod choices;
mod nodes;

pub use choices::choose;
