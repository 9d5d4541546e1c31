// Offer and Run after the questions about lengths: those about the parts of the block, and then the flags or the run.
#![tactic(auto)]

mod offers;
mod running;

pub use offers::offer;
pub use running::run;

// What a Run that is not refused returns: the number of its stop, the choices read and the moves made.
#[derive(Clone, Copy)]
pub struct Played {
    pub stop: u16,
    pub read: u16,
    pub moves: u16,
}
