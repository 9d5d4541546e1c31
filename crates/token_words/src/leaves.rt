// What one token says: its role and number, a type's word, a variable's word, the value of its digits. Past the last token every role, number and value is 0.
ghost use Rattle.std.specs.Prelude.{◌≡◌, ◌+◌, ◌<◌, ◌≤◌, List, ℕ, length, get_or, drop};
ghost use Rattle.words.specs.Word.{WORD};
ghost use Rattle.tokens.specs.Runs.{BEYOND};
ghost use Rattle.rows.specs.Rows.{Item, row_item, type_word, variable_word};
ghost use Rattle.token_words.specs.Items.{Amounts, ForRoles, ForToken};
ghost use Rattle.token_words.specs.Row.{Owns};

use crate::{Items, Members, Roles};
use tokens::magnitude_at;

impl Items<'_> {
    pub fn role_at(&self, i: usize) -> u8
        ensures { (result ≡ get_or self.now.tokens.roles.now i 0) × (result < 256) }
    {
        self.tokens.roles.get(i).copied().unwrap_or(0)
    }

    pub fn value_at(&self, i: usize) -> u16
        ensures { (result ≡ get_or self.now.values.now i 0) × (result < WORD) }
    {
        self.values.get(i).copied().unwrap_or(0)
    }

    // The word of the variable at token i: of `this` and of the parameter its binding, of others 2 more than their number.
    pub fn variable_word(&self, i: usize) -> u16
        ensures { ForToken self.now.tokens.roles.now self.now.values.now i (λ (e : Item). result ≡ variable_word e) }
    {
        let binding = self.role_at(i) / Roles::BINDING;
        if binding == Roles::OTHER {
            return self.value_at(i) + 2;
        }
        binding as u16
    }

    // The word of the type at token i.
    pub fn type_word(&self, i: usize) -> u16
        ensures { ForToken self.now.tokens.roles.now self.now.values.now i (λ (e : Item). result ≡ type_word self.now.types e) }
    {
        match self.role_at(i) {
            Roles::UNIT => 0,
            Roles::INT => self.types + 1,
            _ => self.value_at(i) + 1,
        }
    }

    // What the digits at token i say.
    pub fn amount_at(&self, i: usize) -> u32
        ensures value { (es : List Item) → Amounts self.now.tokens.text.bytes.now self.now.tokens.offsets.now es →
            (j k : ℕ) → j + k ≡ i → result ≡ (row_item (drop j es) k).amount }
        ensures upper_bound { result ≤ BEYOND }
    {
        match self.tokens.offsets.get(i) {
            Some(at) => magnitude_at(self.tokens.text.bytes, *at as usize),
            None => 0,
        }
    }

    // The members that come from token `from` on before the next declaration.
    pub fn owned(&self, from: usize) -> Members
        requires { (length self.now.tokens.roles.now < from + WORD) × (from ≤ length self.now.tokens.roles.now) }
        ensures { ForRoles self.now.tokens.roles.now from (Owns result) }
    {
        let mut signatures = 0;
        let mut fields = 0;
        let mut methods = 0;
        for i in from..self.tokens.roles.len() {
            match self.tokens.roles[i] {
                Roles::INTERFACE | Roles::CLASS => break,
                Roles::SIGNATURE => signatures += 1,
                Roles::FIELD => fields += 1,
                Roles::METHOD => methods += 1,
                _ => {}
            }
        }
        Members {
            signatures,
            fields,
            methods,
        }
    }
}
