// A text that is read, with the table that says what its bytes begin.
#![tactic(auto)]

ghost use Rattle.std.specs.Prelude.{◌≡◌};
ghost use Rattle.tokens.specs.Kinds.{byte_kinds};

// The table lies beside the text, since a constant would be built anew wherever it is read: `byte_table` makes it.
#[derive(Clone, Copy)]
pub struct Text<'a> {
    pub kinds: &'a [u8; 256],
    pub bytes: &'a [u8],
    pub ghost kinds_are: { kinds.now ≡ byte_kinds },
}
