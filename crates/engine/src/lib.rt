// The six calls. A C program makes them through `engine_c`.
#![tactic(auto)]

mod check;
mod offer;
mod read;
mod run;
mod silent_count;
mod start;

pub use check::oolong_check;
pub use offer::oolong_offer;
pub use read::oolong_read;
pub use run::oolong_run;
pub use silent_count::oolong_silent;
pub use start::oolong_start;
