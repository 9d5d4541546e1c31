// Subtyping in code: what a type number is declared as, and what a type is below.
#![tactic(auto)]

mod rows;
mod scripts;
mod subtyping;
mod types;

ghost use Rattle.std.specs.Prelude.{◌≡◌};
ghost use Rattle.subtypes.specs.Tables.{BITS as WORD_BITS, ROW as ROW_WORDS, RUNS as RUN_WORDS, STARTS as START_WORDS};

use limits::Limits;
pub use scripts::Script;
pub use subtyping::fill_rows;
pub use types::{declared_as, int_of};

// A word for each run of signatures, fields and methods.
const RUNS: usize = Limits::INTERFACES + Limits::CLASSES + Limits::CLASSES;

// The bits of a word, and the words of an interface's row, which has a bit for each interface.
const BITS: usize = 16;

const ROW: usize = Limits::INTERFACES / BITS;

// The words for runs and rows.
pub const STARTS: usize = RUNS + Limits::INTERFACES * ROW;

// The constants and the definitions are the same numbers.
pub fn agreed()
    ensures runs { RUNS ≡ RUN_WORDS }
    ensures bits { BITS ≡ WORD_BITS }
    ensures row { ROW ≡ ROW_WORDS }
    ensures starts { STARTS ≡ START_WORDS }
{}

// What a type number is declared as, with the index of the record.
#[derive(Clone, Copy)]
pub enum Declared {
    Interface(usize),
    Class(usize),
    Neither,
}
