// Typing on paper: what the walk over an expression and Check answer.
#![tactic(auto)]

use script::Question;

// Each variant is an arrow of the paper, so neither is the lack of the other, as None would be.
// How an expression is asked for its type: it is inferred, or checked against a type. Figure 11's arrows ⇒ and ⇐.
#[derive(Clone, Copy)]
pub enum Aim {
    Infers,
    Checks(u16),
}

// A no to a question of the walk over an expression, and the node that it gets it at.
#[derive(Clone, Copy)]
pub struct Fault {
    pub question: Question,
    pub node: u16,
}
