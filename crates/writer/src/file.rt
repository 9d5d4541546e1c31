// The file: contents, then each section, in the file's order.
ghost use Rattle.std.specs.Prelude.{◌≡◌, ◌≤◌, length};
ghost use Rattle.limits.specs.Limits.{FILE};
ghost use Rattle.rows.specs.Rows.{sections_words};
ghost use Rattle.token_words.specs.Whole.{items_in};
ghost use Rattle.row_bytes.specs.Output.{Fits, Extended};
ghost use Rattle.section_rows.specs.Counted.{CountsFit};
ghost use Rattle.writer.specs.Files.{FileIs, contents_by, file_words};

use bounds::Counts;
use limits::Limits;
use row_bytes::Output;
use script::Section;
use section_rows::{Records, Source, append_expressions, append_records, count_nodes, fill_sizes};
use slices::clear;
use token_words::Row;

// Appends the contents: for each section where its body begins, and how many records it has.
fn append_contents(counts: &Counts, output: &mut Output)
    requires few { CountsFit counts.now }
    requires fits { Fits output.old (contents_by counts.now) }
    ensures { Extended output.old output.new (contents_by counts.now) }
{
    let interfaces = counts.of(Section::Interfaces) as u16;
    let signatures = counts.of(Section::Signatures) as u16;
    let classes = counts.of(Section::Classes) as u16;
    let fields = counts.of(Section::Fields) as u16;
    let methods = counts.of(Section::Methods) as u16;
    let nodes = counts.of(Section::Nodes) as u16;
    let signatures_at = 24 + 6 * interfaces;
    let classes_at = signatures_at + 6 * signatures;
    let fields_at = classes_at + 6 * classes;
    let methods_at = fields_at + 4 * fields;
    let nodes_at = methods_at + 8 * methods;
    output.append(Row::Four(24, interfaces, signatures_at, signatures));
    output.append(Row::Four(classes_at, classes, fields_at, fields));
    output.append(Row::Four(methods_at, methods, nodes_at, nodes));
}

// Appends all sections of a text, of which `start` tokens come before the start.
fn append_sections(records: &Records, start: usize, output: &mut Output)
    requires starts { start ≤ length records.now.items.tokens.roles.now }
    requires fits { Fits output.old (sections_words records.now.items.types start (items_in records.now.items)) }
    ensures { Extended output.old output.new (sections_words records.now.items.types start (items_in records.now.items)) }
{
    let roles = records.items.tokens.roles;
    let places = records.places(Section::Nodes);
    let mut table = [0u16; Limits::NODES];
    let sizes = &mut table[..places.len()];
    fill_sizes(roles, places, sizes);
    let source = Source {
        records: *records,
        sizes,
    };
    let own = count_nodes(roles, start);
    append_records(&source, own, output);
    append_expressions(&source, own, output);
}

// Appends the whole file.
fn append_file(records: &Records, start: usize, output: &mut Output)
    requires starts { start ≤ length records.now.items.tokens.roles.now }
    requires fits { Fits output.old (file_words records.now.counts start (items_in records.now.items)) }
    ensures { Extended output.old output.new (file_words records.now.counts start (items_in records.now.items)) }
{
    append_contents(&records.counts, output);
    append_sections(records, start, output);
}

// Writes the script file of a text over the buffer, and answers its length. What is behind the file is 0.
pub fn write_file(records: &Records, start: usize, file: &mut [u8]) -> usize
    requires starts { start ≤ length records.now.items.tokens.roles.now }
    requires whole { length file.old ≡ FILE }
    ensures { FileIs (file_words records.now.counts start (items_in records.now.items)) file.new result }
{
    clear(file);
    let mut output = Output {
        bytes: file,
        end: 0,
    };
    append_file(records, start, &mut output);
    output.end
}
