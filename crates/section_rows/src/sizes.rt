// How many nodes there are, and how many each expression has.
ghost use Rattle.std.specs.Prelude.{◌≡◌, List, ◌<◌, ◌≤◌, length, drop};
ghost use Rattle.words.specs.Word.{WORD};
ghost use Rattle.script.specs.declared.Section.TheVariants.{Nodes as nodes};
ghost use Rattle.grammar.specs.Faults.{begins_test};
ghost use Rattle.rows.specs.Rows.{Item, arity_of, sizes_of};
ghost use Rattle.token_words.specs.Items.{Roled};
ghost use Rattle.bounds.specs.Places.{places_from};
ghost use Rattle.section_rows.specs.Records.{begun_among};

use row_words::begins;
use script::Section;
use token_words::{Roles, hop};

// How many parts a node has whose first token has this role.
#[tactic(auto, unfolding(rows::specs::Rows::arity_of))]
fn arity(role: u8) -> usize
    ensures { (result ≡ arity_of role) × (result ≤ 3) }
{
    match role {
        Roles::UPDATE | Roles::CALL | Roles::CAST | Roles::LOCK => 1,
        Roles::LET => 2,
        Roles::FORK => 3,
        _ => 0,
    }
}

// How many nodes begin from token `from` on.
pub fn count_nodes(roles: &[u8], from: usize) -> usize
    requires { from ≤ length roles.now }
    ensures { result ≡ begun_among nodes (drop from roles.now) }
{
    roles[from..]
        .iter()
        .filter(|role| begins(Section::Nodes, **role))
        .count()
}

// Fills in the sizes of all nodes, which begin at the tokens that `places` has, from the last node to the first: the parts of each have theirs then.
pub fn fill_sizes(roles: &[u8], places: &[u16], sizes: &mut [u16])
    requires { (places.now ≡ places_from nodes 0 roles.now) × (length sizes.old ≡ length places.now) × (length sizes.old < WORD) }
    ensures { (es : List Item) → Roled roles.now es → sizes.new ≡ sizes_of es }
{
    for k in (0..places.len()).rev() {
        let role = roles[places[k] as usize];
        let size = hop(sizes, k + 1, arity(role % Roles::BINDING)) + 1;
        sizes[k] = size as u16;
    }
}
