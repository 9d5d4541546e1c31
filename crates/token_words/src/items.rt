// What the passes over a text have left of its tokens, which rows are read off.
ghost use Rattle.std.specs.Prelude.{◌≡◌, ◌+◌, ◌<◌, ◌≤◌, length};
ghost use Rattle.words.specs.Word.{WORD};
ghost use Rattle.limits.specs.Limits.{TEXT};
ghost use Rattle.token_words.specs.Items.{Small};

use tokens::Tokens;

// The tokens of a text that declares `types` types, with the number of each. A variable's word, which is at most 2 more than its number, is a word.
#[derive(Clone, Copy)]
pub struct Items<'a> {
    pub tokens: Tokens<'a>,
    pub values: &'a [u16],
    pub types: u16,
    pub ghost small: { Small values.now },
    pub ghost few_types: { types + 1 < WORD },
    pub ghost few_tokens: { length tokens.roles.now ≤ TEXT },
    pub ghost value_each: { length values.now ≡ length tokens.roles.now },
}
