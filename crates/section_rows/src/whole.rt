// The sections one after another, in the file's order: all but the nodes, and then those.
ghost use Rattle.std.specs.Prelude.{◌≡◌, ℕ, ◌+◌, ◌*◌, ◌≤◌, length, drop};
ghost use Rattle.script.specs.declared.Section.TheVariants.{Nodes as nodes-section};
ghost use Rattle.token_words.specs.Whole.{items_in};
ghost use Rattle.row_bytes.specs.Output.{Fits, Extended};
ghost use Rattle.section_rows.specs.Records.{begun_among};
ghost use Rattle.section_rows.specs.Counted.{record_rows, start_and_bodies};

use crate::Source;
use crate::append::{append_methods, append_nodes, append_plain};
use row_bytes::Output;
use script::Section;

// Appends all sections but the nodes, of which `own` are the start's.
pub fn append_records(source: &Source, own: usize, output: &mut Output)
    requires few { own ≤ length source.now.sizes.now }
    requires fits { Fits output.old (record_rows source.now.records.items.types own (items_in source.now.records.items)) }
    ensures { Extended output.old output.new (record_rows source.now.records.items.types own (items_in source.now.records.items)) }
{
    append_plain(source, Section::Interfaces, output);
    append_plain(source, Section::Signatures, output);
    append_plain(source, Section::Classes, output);
    append_plain(source, Section::Fields, output);
    append_methods(source, own, output);
}

// Appends the nodes: the start's, which are the last `own`, and then those of the bodies, which come before.
pub fn append_expressions(source: &Source, own: usize, output: &mut Output)
    requires few { own ≤ length source.now.sizes.now }
    requires fits { output.old.end + 8 * length source.now.sizes.now ≤ length output.old.bytes.now }
    ensures { (start : ℕ) → start ≤ length source.now.records.items.tokens.roles.now →
        own ≡ begun_among nodes-section (drop start source.now.records.items.tokens.roles.now) →
        Extended output.old output.new (start_and_bodies source.now.records.items.types start own (items_in source.now.records.items)) }
{
    let all = source.sizes.len();
    let bodies = all - own;
    append_nodes(source, bodies, all, 0, output);
    append_nodes(source, 0, bodies, own, output);
}
