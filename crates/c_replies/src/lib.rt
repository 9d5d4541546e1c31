// The replies as C gets them.
// A number stands beside the values, and 0 means that the call was not refused: C has no Result, and include/oolong.h declares these structs so.
#![tactic(auto)]

mod check;
mod offer;
mod read;
mod run;
mod silent;
mod start;

pub use check::CheckReply;
pub use offer::OfferReply;
pub use read::{ReadReply, read_reply};
pub use run::RunReply;
pub use silent::SilentReply;
pub use start::StartReply;
