// The tokens of a text that is derived, as the passes behind the judge take them.
#![tactic(auto)]

ghost use Rattle.std.specs.Prelude.{◌≡◌, ℕ, ◌≤◌, length, get_or};
ghost use Rattle.words.specs.Word.{WORD};

use crate::Text;

// Each token's role, and the byte of the text where it stands.
#[derive(Clone, Copy)]
pub struct Tokens<'a> {
    pub text: Text<'a>,
    pub roles: &'a [u8],
    pub offsets: &'a [u16],
    pub ghost offset_each: { length offsets.now ≡ length roles.now },
    pub ghost few: { length roles.now ≤ WORD },
    pub ghost inside: { (i : ℕ) → get_or offsets.now i 0 ≤ length text.bytes.now },
}
