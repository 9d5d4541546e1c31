// The rows of nodes, by the role of a node's first token.
ghost use Rattle.std.specs.Prelude.{◌≡◌, ℕ, ◌+◌, ◌<◌, ◌≤◌, ◌/◌, ◌%◌, length, get_or, drop, List};
ghost use Rattle.words.specs.Integer.{bits_of};
ghost use Rattle.grammar.specs.Files.{four_words, negated};
ghost use Rattle.tokens.specs.Runs.{BEYOND};
ghost use Rattle.words.specs.Word.{WORD};
ghost use Rattle.rows.specs.Rows.{Item, row_item, variable_word, node_row};
ghost use Rattle.token_words.specs.Items.{Labelled, Described};
ghost use Rattle.token_words.specs.Row.{row_words};

use part_rows::{fork_row, let_row};
use token_words::{ItemsFrom, Node, Roles, Row};

// A sum of the variables at token k behind the first and at the one 2 behind that.
fn sum_row(from: &ItemsFrom, k: usize) -> Row
    requires { k < 2 }
    ensures { (es : List Item) → Labelled from.now.items.tokens.roles.now from.now.items.values.now es →
        row_words result ≡ four_words 11 (variable_word (row_item (drop from.now.i es) k)) (variable_word (row_item (drop from.now.i es) (k + 2))) 0 }
{
    Row::Four(11, from.variable_word(k), from.variable_word(k + 2), 0)
}

// An integer, of which two's complement has these bits.
fn constant_row(bits: u32) -> Row
    ensures { row_words result ≡ four_words 10 (bits % WORD) (bits / WORD) 0 }
{
    Row::Four(10, (bits % 65536) as u16, (bits / 65536) as u16, 0)
}

// What two's complement has for the number with a minus that is so large without it.
fn negated_bits(magnitude: u32) -> u32
    requires { magnitude ≤ BEYOND }
    ensures { result ≡ bits_of (negated magnitude) }
{
    magnitude.wrapping_neg()
}

// The row of a node. A member's target comes first, then the member, then the part.
pub fn node_row(from: &ItemsFrom, node: &Node) -> Row
    requires { 15 < get_or from.now.items.tokens.roles.now from.now.i 0 % 32 }
    ensures { (es : List Item) → Described from.now.items.tokens.text.bytes.now from.now.items.tokens.roles.now
        from.now.items.tokens.offsets.now from.now.items.values.now es →
        row_words result ≡ node_row from.now.items.types node.now.n (drop node.now.from node.now.sizes.now) (drop from.now.i es) }
{
    let role = from.role(0) % Roles::BINDING;
    match role {
        Roles::NULL => Row::Four(0, 0, 0, 0),
        Roles::VARIABLE => Row::Four(1, from.variable_word(0), 0, 0),
        Roles::SELECT => Row::Four(2, from.variable_word(0), from.value(2), 0),
        Roles::UPDATE => Row::Four(3, from.variable_word(0), from.value(2), node.n + 1),
        Roles::CALL => Row::Four(4, from.variable_word(0), from.value(2), node.n + 1),
        Roles::LET => let_row(from, node),
        Roles::NEW => Row::Four(6, from.type_word(1), 0, 0),
        Roles::CAST => Row::Four(7, from.type_word(1), node.n + 1, 0),
        Roles::FORK => fork_row(node),
        Roles::LOCK => Row::Four(9, from.variable_word(2), node.n + 1, 0),
        Roles::INTEGER => constant_row(from.amount(0)),
        Roles::NEGATIVE => constant_row(negated_bits(from.amount(1))),
        Roles::SUM => sum_row(from, 0),
        _ => sum_row(from, 1),
    }
}
