// What the token says that is k behind the first one of a record.
ghost use Rattle.std.specs.Prelude.{◌≡◌, ◌+◌, ◌<◌, ◌≤◌, List, drop};
ghost use Rattle.words.specs.Word.{WORD};
ghost use Rattle.tokens.specs.Runs.{BEYOND};
ghost use Rattle.rows.specs.Rows.{Item, row_item, type_word, variable_word};
ghost use Rattle.token_words.specs.Items.{Roled, Labelled, Amounts};
ghost use Rattle.token_words.specs.Row.{Owns};

use crate::{ItemsFrom, Members};

impl ItemsFrom<'_> {
    pub fn role(&self, k: usize) -> u8
        requires { k < WORD }
        ensures { (es : List Item) → Roled self.now.items.tokens.roles.now es → result ≡ (row_item (drop self.now.i es) k).role }
    {
        self.items.role_at(self.i + k)
    }

    pub fn value(&self, k: usize) -> u16
        requires { k < WORD }
        ensures { (es : List Item) → Labelled self.now.items.tokens.roles.now self.now.items.values.now es → result ≡ (row_item (drop self.now.i es) k).value }
    {
        self.items.value_at(self.i + k)
    }

    pub fn variable_word(&self, k: usize) -> u16
        requires { k < WORD }
        ensures { (es : List Item) → Labelled self.now.items.tokens.roles.now self.now.items.values.now es →
            result ≡ variable_word (row_item (drop self.now.i es) k) }
    {
        self.items.variable_word(self.i + k)
    }

    pub fn type_word(&self, k: usize) -> u16
        requires { k < WORD }
        ensures { (es : List Item) → Labelled self.now.items.tokens.roles.now self.now.items.values.now es →
            result ≡ type_word self.now.items.types (row_item (drop self.now.i es) k) }
    {
        self.items.type_word(self.i + k)
    }

    pub fn amount(&self, k: usize) -> u32
        requires { k < WORD }
        ensures value { (es : List Item) → Amounts self.now.items.tokens.text.bytes.now self.now.items.tokens.offsets.now es →
            result ≡ (row_item (drop self.now.i es) k).amount }
        ensures upper_bound { result ≤ BEYOND }
    {
        self.items.amount_at(self.i + k)
    }

    // The members that come behind the first token before the next declaration.
    pub fn owned(&self) -> Members
        ensures { (es : List Item) → Roled self.now.items.tokens.roles.now es → Owns result (drop 1 (drop self.now.i es)) }
    {
        self.items.owned(self.i + 1)
    }
}
