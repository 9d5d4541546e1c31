// The pass that asks for 35, before those behind it.
#![tactic(auto)]

ghost use Rattle.std.specs.Prelude.{◌≤◌, length};
ghost use Rattle.words.specs.Word.{WORD};
ghost use Rattle.grammar.specs.Read.{read_of};
ghost use Rattle.ask_limits.specs.Reading.{ReadAs};
ghost use Rattle.ask_limits.specs.Derived.{DerivedText};

use ask_limits::{ReadError, ReadRefusal, ask_limits};
use declarations::declaration_fault;
use numbering::{Linked, link_names};
use spellings::NameTable;
use tokens::Tokens;

// 35: "after 34, a type name is declared nowhere or again". There is room for N tokens. It is never inlined: the frame of a call for few tokens then has no
// room for many, whose pages would be touched each time.
#[inline(never)]
pub fn ask_declarations<const N: usize>(
    tokens: &Tokens,
    start: usize,
    file: &mut [u8],
) -> Result<u16, ReadRefusal>
    requires judged { DerivedText tokens.now start file.old }
    requires room { (length tokens.now.roles.now ≤ N) × (N ≤ WORD) }
    ensures { ReadAs result file.new (read_of tokens.now.text.bytes.now file.old) }
{
    let mut chain = [0u16; N];
    let mut values = [0u16; N];
    let mut table = NameTable::<N>::new();
    let firsts = link_names(tokens.roles, &mut chain);
    let linked = Linked {
        tokens: *tokens,
        chain: &chain,
        firsts,
    };
    if let Some(i) = declaration_fault(&linked, &mut values, &mut table) {
        return Err(ReadRefusal::at_token(ReadError::NoDeclaration, tokens, i));
    }
    ask_limits(&linked, start, &mut values, &mut table, file)
}
