// A run of choices: each is taken after a look, and a stop ends it.
#![tactic(auto)]

mod runs;

use machine::Stop;
pub use runs::run_choices;

// What a choice did: how many moves it made, and what comes after it.
#[derive(Clone, Copy)]
pub struct Taken {
    pub made: usize,
    pub next: Option<Stop>,
}

// What Run returns.
#[derive(Clone, Copy)]
pub struct Ran {
    pub stop: Stop,
    pub read: usize,
    pub moves: usize,
}
