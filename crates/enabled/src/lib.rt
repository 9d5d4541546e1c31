// Which positions can move, as Offer marks them and as Run sees it when it looks.
#![tactic(auto)]

mod looks;
mod marks;

pub use looks::{can_move, look};
use machine::Ending;
pub use marks::mark;
