// The numbers of questions and stops.
#![tactic(auto)]

mod questions;
mod stops;

pub use questions::{lent_number, number_of};
pub use stops::stop_number;
