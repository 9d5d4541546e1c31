// Error 35: a name of a type that is declared again, or nowhere.
#![tactic(auto)]

ghost use Rattle.std.specs.Prelude.{◌≡◌, true, [], ◌<◌, ◌≤◌, length, get_or};
ghost use Rattle.spellings.specs.Table.{TableFilled, Holds, OfNames};
ghost use Rattle.declarations.specs.Declaring.{FirstFound, again_at, type_named, TypeAsked, TypesAsked, Declarations};

use numbering::{Linked, Sort, number_names};
use spellings::NameTable;
use tokens::Tokens;

// A link tells the next token of a sort, so there is no range for a `for` to go through.
// The first token that declares a name declared before it. The names that are declared have been numbered.
fn first_again(linked: &Linked, values: &[u16]) -> Option<usize>
    requires { length linked.now.tokens.roles.now ≤ length values.now }
    ensures { FirstFound (again_at linked.now.tokens.roles.now values.now) (length linked.now.tokens.roles.now) result }
{
    let mut seen = 0;
    let mut i = linked.firsts.of(Sort::Declared);
    while i < linked.tokens.roles.len() {
        if values[i] as usize != seen {
            return Some(i);
        }
        seen += 1;
        i = linked.next_in(i);
    }
    None
}

// Gives token i, which names a type, the number of its declaration, or answers no.
fn type_token<const N: usize>(
    tokens: &Tokens,
    i: usize,
    values: &mut [u16],
    table: &NameTable<N>,
) -> bool
    requires i_in_bounds { (i < length tokens.now.roles.now) × (i < length values.old) }
    requires i_value { type_named (get_or tokens.now.roles.now i 0) ≡ true }
    requires table_filled { TableFilled tokens.now.text.bytes.now table.now }
    ensures { OfNames tokens.now.text.bytes.now table.now (λ names.
        TypeAsked names tokens.now.text.bytes.now tokens.now.roles.now tokens.now.offsets.now values.old i values.new result) }
{
    if let Some(e) = table.find(&tokens.text, tokens.offsets[i]) {
        values[i] = e as u16;
        return true;
    }
    false
}

// Along the links again.
// The first token that names a type declared nowhere. The table holds the declared names.
fn first_nowhere<const N: usize>(
    linked: &Linked,
    values: &mut [u16],
    table: &NameTable<N>,
) -> Option<usize>
    requires room { length linked.now.tokens.roles.now ≤ length values.old }
    requires table_filled { TableFilled linked.now.tokens.text.bytes.now table.now }
    ensures { OfNames linked.now.tokens.text.bytes.now table.now (λ names.
        TypesAsked names linked.now.tokens.text.bytes.now linked.now.tokens.roles.now linked.now.tokens.offsets.now values.old
        (length linked.now.tokens.roles.now) values.new result) }
{
    let mut i = linked.firsts.of(Sort::Types);
    while i < linked.tokens.roles.len() {
        if !type_token(&linked.tokens, i, values, table) {
            return Some(i);
        }
        i = linked.next_in(i);
    }
    None
}

// The first token at fault. If there is none, the declared names and the names of types have their values, and the table holds the declared names.
pub fn declaration_fault<const N: usize>(
    linked: &Linked,
    values: &mut [u16],
    table: &mut NameTable<N>,
) -> Option<usize>
    requires room { (length linked.now.tokens.roles.now ≤ length values.old) × (length linked.now.tokens.roles.now ≤ N) }
    requires table_holds { Holds linked.now.tokens.text.bytes.now table.old [] × (table.old.count ≡ 0) }
    ensures { Declarations linked.now.tokens.text.bytes.now linked.now.tokens.roles.now linked.now.tokens.offsets.now values.old
        (length linked.now.tokens.roles.now) values.new result }
{
    number_names(linked, Sort::Declared, values, table);
    let again = first_again(linked, values);
    let nowhere = first_nowhere(linked, values, table);
    match (again, nowhere) {
        (Some(a), Some(b)) => Some(a.min(b)),
        (Some(a), None) => Some(a),
        (None, b) => b,
    }
}
