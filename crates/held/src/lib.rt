// Which objects a thread holds, by the lock frames that it will resume.
#![tactic(auto)]

mod held;

pub use held::holds;
