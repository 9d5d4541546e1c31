// The move of a lock, and what a thread finds there.
#![tactic(auto)]

mod locking;

pub use locking::{enter_lock, lock_access};

// What a thread finds at a lock: it cannot move, the target is null, or an object that is open or that it holds.
#[derive(Clone, Copy)]
pub enum Access {
    Stays,
    Null,
    Open(u16),
    Held,
}
