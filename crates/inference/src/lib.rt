// Questions 11 to 15 in code: the walk over expressions, bodies and the start.
#![tactic(auto)]

mod expressions;
mod program;

pub use expressions::{answer_of, infer, infer_type};
pub use program::walk_script;

// What an expression gives that gets no no, whether it is inferred or checked: a type, with the innermost last part, which has it; or a null, which is that
// part.
#[derive(Clone, Copy)]
pub enum Given {
    Typed(u16, u16),
    Null(u16),
}
