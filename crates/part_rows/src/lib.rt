// The rows of lets and of forks, whose parts are numbered by the sizes of those before them.
#![tactic(auto)]

ghost use Rattle.std.specs.Prelude.{◌≡◌, ◌+◌, get_or, drop};
ghost use Rattle.grammar.specs.Files.{four_words};
ghost use Rattle.rows.specs.Rows.{hop};
ghost use Rattle.token_words.specs.Row.{row_words};

use token_words::{ItemsFrom, Node, Row};

// A let.
pub fn let_row(from: &ItemsFrom, node: &Node) -> Row
    ensures { row_words result ≡
        four_words 5 (get_or from.now.items.values.now (from.now.i + 1) 0 + 2) (node.now.n + 1)
        (node.now.n + 1 + hop 1 (drop node.now.from node.now.sizes.now)) }
{
    let y = from.items.value_at(from.i + 1) + 2;
    Row::Four(5, y, node.n + 1, node.part(1))
}

// A fork.
pub fn fork_row(node: &Node) -> Row
    ensures { row_words result ≡
        four_words 8 (node.now.n + 1)
        (node.now.n + 1 + hop 1 (drop node.now.from node.now.sizes.now))
        (node.now.n + 1 + hop 2 (drop node.now.from node.now.sizes.now)) }
{
    Row::Four(8, node.n + 1, node.part(1), node.part(2))
}
