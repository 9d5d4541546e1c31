// The rows of all sections but nodes.
#![tactic(auto)]

ghost use Rattle.std.specs.Prelude.{◌≡◌, drop, List};
ghost use Rattle.rows.specs.Rows.{Item, interface_row, signature_row, class_row, field_row, method_row};
ghost use Rattle.token_words.specs.Items.{Labelled};
ghost use Rattle.token_words.specs.Row.{row_words};

use token_words::{ItemsFrom, Roles, Row};

// A join, whose first type is 3 tokens behind `interface`, or a list of signatures.
pub fn interface_row(from: &ItemsFrom) -> Row
    ensures { (es : List Item) → Labelled from.now.items.tokens.roles.now from.now.items.values.now es →
        row_words result ≡ interface_row from.now.items.types (drop from.now.i es) }
{
    if from.role(3) == Roles::TYPE {
        return Row::Three(1, from.type_word(3), from.type_word(5));
    }
    Row::Three(0, from.owned().signatures, 0)
}

pub fn signature_row(from: &ItemsFrom) -> Row
    ensures { (es : List Item) → Labelled from.now.items.tokens.roles.now from.now.items.values.now es →
        row_words result ≡ signature_row from.now.items.types (drop from.now.i es) }
{
    Row::Three(from.value(0), from.type_word(4), from.type_word(7))
}

pub fn class_row(from: &ItemsFrom) -> Row
    ensures { (es : List Item) → Labelled from.now.items.tokens.roles.now from.now.items.values.now es →
        row_words result ≡ class_row from.now.items.types (drop from.now.i es) }
{
    let members = from.owned();
    Row::Three(from.type_word(3), members.fields, members.methods)
}

pub fn field_row(from: &ItemsFrom) -> Row
    ensures { (es : List Item) → Labelled from.now.items.tokens.roles.now from.now.items.values.now es →
        row_words result ≡ field_row from.now.items.types (drop from.now.i es) }
{
    Row::Two(from.value(0), from.type_word(2))
}

// A method whose body's first node is `body`.
pub fn method_row(from: &ItemsFrom, body: u16) -> Row
    ensures { (es : List Item) → Labelled from.now.items.tokens.roles.now from.now.items.values.now es →
        row_words result ≡ method_row from.now.items.types body (drop from.now.i es) }
{
    Row::Four(from.value(1), from.type_word(5), from.type_word(8), body)
}
