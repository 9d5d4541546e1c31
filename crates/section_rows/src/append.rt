// The rows of a section, appended to the file in the order of the text: those of the records that begin at the tokens that the index has.
ghost use Rattle.std.specs.Prelude.{◌≡◌, true, List, ℕ, ◌+◌, ◌-◌, ◌*◌, ◌≤◌, ◌<◌, length, get_or, take, drop};
ghost use Rattle.script.specs.declared.Section.TheVariants.{Methods as methods, Nodes as nodes-section};
ghost use Rattle.grammar.specs.Faults.{begins_test};
ghost use Rattle.bounds.specs.Places.{places_from};
ghost use Rattle.rows.specs.Rows.{sizes_of};
ghost use Rattle.token_words.specs.Whole.{items_in};
ghost use Rattle.row_words.specs.Row.{row_of};
ghost use Rattle.row_bytes.specs.Output.{Fits, Extended};
ghost use Rattle.section_rows.specs.Records.{Unnumbered, Stretch, begun_among, rows_of};
ghost use Rattle.section_rows.specs.Counted.{all_rows};

use crate::Source;
use row_bytes::Output;
use row_words::row_at;
use script::Section;
use token_words::{Items, ItemsFrom, Node};

// Appends the record of a section that begins at token i, where this node is the next one.
fn append_row(items: &Items, section: Section, i: usize, node: &Node, output: &mut Output)
    requires inside { i < length items.now.tokens.roles.now }
    requires begins { begins_test section (get_or items.now.tokens.roles.now i 0) ≡ true }
    requires sizes_value { section ≡ nodes-section → drop node.now.from node.now.sizes.now ≡ sizes_of (drop (i + 1) (items_in items.now)) }
    requires fits { Fits output.old (row_of section items.now.types node.now.n (drop i (items_in items.now))) }
    ensures { Extended output.old output.new (row_of section items.now.types node.now.n (drop i (items_in items.now))) }
{
    let from = ItemsFrom { items: *items, i };
    output.append(row_at(&from, section, node));
}

// Appends a section whose rows have no node's number.
pub fn append_plain(source: &Source, section: Section, output: &mut Output)
    requires unnumbered { Unnumbered section }
    requires fits { Fits output.old (all_rows section source.now.records.items.types 0 (items_in source.now.records.items)) }
    ensures { Extended output.old output.new (all_rows section source.now.records.items.types 0 (items_in source.now.records.items)) }
{
    let node = source.node(0, 0);
    for i in source.records.places(section) {
        append_row(&source.records.items, section, *i as usize, &node, output);
    }
}

// How many nodes begin before token i.
fn nodes_before(nodes: &[u16], i: usize) -> usize
    ensures { (roles : List ℕ) → nodes.now ≡ places_from nodes-section 0 roles → result ≡ begun_among nodes-section (take i roles) }
{
    nodes.partition_point(|node| (*node as usize) < i)
}

// Appends the methods, where the bodies' nodes are numbered from `base` on.
pub fn append_methods(source: &Source, base: usize, output: &mut Output)
    requires few { base ≤ length source.now.sizes.now }
    requires fits { Fits output.old (all_rows methods source.now.records.items.types base (items_in source.now.records.items)) }
    ensures { Extended output.old output.new (all_rows methods source.now.records.items.types base (items_in source.now.records.items)) }
{
    let nodes = source.records.places(Section::Nodes);
    for i in source.records.places(Section::Methods) {
        let first = base + nodes_before(nodes, *i as usize);
        let node = source.node(first as u16, 0);
        append_row(
            &source.records.items,
            Section::Methods,
            *i as usize,
            &node,
            output,
        );
    }
}

// Appends the nodes that have the numbers from `from` on before `to` in the order of the text, and numbers them from `base` on.
pub fn append_nodes(source: &Source, from: usize, to: usize, base: usize, output: &mut Output)
    requires few { base ≤ length source.now.sizes.now }
    requires ordered { from ≤ to }
    requires within { to ≤ length source.now.sizes.now }
    requires fits { output.old.end + 8 * (to - from) ≤ length output.old.bytes.now }
    ensures by_index { (a b : ℕ) → Stretch source.now.records.items.tokens.roles.now from to a b →
        Extended output.old output.new
        (rows_of nodes-section source.now.records.items.types (b - a) base (drop a (items_in source.now.records.items))) }
    ensures end { output.new.end ≡ output.old.end + 8 * (to - from) }
    ensures same_long { length output.new.bytes.now ≡ length output.old.bytes.now }
    ensures same_reference { output.new.bytes.ghost_name ≡ output.old.bytes.ghost_name }
{
    let places = source.records.places(Section::Nodes);
    for k in from..to {
        let n = base + (k - from);
        let node = source.node(n as u16, k + 1);
        append_row(
            &source.records.items,
            Section::Nodes,
            places[k] as usize,
            &node,
            output,
        );
    }
}
