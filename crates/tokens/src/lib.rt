// Tokens of a text: the next one, and what names and digits say. A text is read in place, each token where it stands.
#![tactic(auto)]

mod names;
mod roles;
mod scan;
mod source;

ghost use Rattle.std.specs.Prelude.{◌≡◌};
ghost use Rattle.tokens.specs.Kinds as kinds_spec;
ghost use Rattle.tokens.specs.Next.{K_DIGITS};
ghost use Rattle.tokens.specs.Runs as runs_spec;

pub use names::magnitude_at;
pub use roles::Tokens;
pub use source::Text;
pub use word_kinds::NAME;

// The kind of digits: that of names comes before it, and before that those of the words and signs that the grammar spells out, which have their numbers.
pub const DIGITS: u8 = 29;

// A blank begins no token.
pub const BLANK: u8 = 0;

// A hash of a name is below this.
pub const HASHES: usize = 512;

// What the value of digits is at most: the first number that no integer has, with a minus or without.
pub const BEYOND: u32 = 2147483649;

// A token's kind, where it starts and where it ends. A kind is a number and no enum: the grammar numbers words and signs, and the judge's table has a column
// for each.
#[derive(Clone, Copy)]
pub struct Next {
    pub kind: u8,
    pub start: usize,
    pub end: usize,
}

// A name: its hash, and how many bytes it has.
#[derive(Clone, Copy)]
pub struct Name {
    pub hash: usize,
    pub size: usize,
}

// The constants and the definitions are the same numbers.
pub fn agreed()
    ensures digits { DIGITS ≡ K_DIGITS }
    ensures blank { BLANK ≡ kinds_spec.BLANK }
    ensures hashes { HASHES ≡ runs_spec.HASHES }
    ensures beyond { BEYOND ≡ runs_spec.BEYOND }
{}
