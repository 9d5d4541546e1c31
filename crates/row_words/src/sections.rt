// The row of a record, by its section.
ghost use Rattle.std.specs.Prelude.{◌≡◌, true, List, ◌+◌, get_or, drop};
ghost use Rattle.script.specs.declared.Section.TheVariants.{Nodes as nodes};
ghost use Rattle.grammar.specs.Faults.{begins_test};
ghost use Rattle.rows.specs.Rows.{Item, sizes_of};
ghost use Rattle.token_words.specs.Items.{Described};
ghost use Rattle.token_words.specs.Row.{row_words};
ghost use Rattle.row_words.specs.Row.{row_of};

use crate::nodes::node_row;
use record_rows::{class_row, field_row, interface_row, method_row, signature_row};
use script::Section;
use token_words::{ItemsFrom, Node, Roles, Row};

// Does a token of this role begin a record of the section?
pub fn begins(section: Section, role: u8) -> bool
    ensures { result ≡ begins_test section role }
{
    match section {
        Section::Interfaces => role == Roles::INTERFACE,
        Section::Signatures => role == Roles::SIGNATURE,
        Section::Classes => role == Roles::CLASS,
        Section::Fields => role == Roles::FIELD,
        Section::Methods => role == Roles::METHOD,
        Section::Nodes => Roles::NULL <= role % Roles::BINDING,
    }
}

// The row of the record that begins with these items, where this node is the next one. This is a match and no table of functions, since what a row is read off
// differs by section.
pub fn row_at(from: &ItemsFrom, section: Section, node: &Node) -> Row
    requires { begins_test section (get_or from.now.items.tokens.roles.now from.now.i 0) ≡ true }
    ensures { (es : List Item) → Described from.now.items.tokens.text.bytes.now from.now.items.tokens.roles.now
        from.now.items.tokens.offsets.now from.now.items.values.now es →
        (section ≡ nodes → drop node.now.from node.now.sizes.now ≡ sizes_of (drop (from.now.i + 1) es)) →
        row_words result ≡ row_of section from.now.items.types node.now.n (drop from.now.i es) }
{
    match section {
        Section::Interfaces => interface_row(from),
        Section::Signatures => signature_row(from),
        Section::Classes => class_row(from),
        Section::Fields => field_row(from),
        Section::Methods => method_row(from, node.n),
        Section::Nodes => node_row(from, node),
    }
}
