// The passes over a text in which no name of a type is at fault: 36, then the numbers of names, then the file.
#![tactic(auto)]

mod numbers;
mod refusal;

ghost use Rattle.std.specs.Prelude.{◌≡◌, ◌≤◌, length};
ghost use Rattle.grammar.specs.Read.{read_of};
ghost use Rattle.ask_limits.specs.Reading.{ReadAs};
ghost use Rattle.ask_limits.specs.Derived.{DeclaredText, NumberedText};

use crate::numbers::number_rest;
use bounds::{Counts, Index, count_records};
use numbering::Linked;
pub use refusal::{ReadError, ReadRefusal};
use section_rows::Records;
use spellings::NameTable;
use token_words::Items;
use tokens::Tokens;
use writer::write_file;

// Writes the file, and answers how many bytes it has.
fn write<'a>(
    tokens: &Tokens<'a>,
    values: &'a [u16],
    index: &'a [u16],
    start: usize,
    counts: Counts,
    file: &mut [u8],
) -> u16
    requires { NumberedText tokens.now values.now index.now start counts file.old }
    ensures { ReadAs (Ok result) file.new (read_of tokens.now.text.bytes.now file.old) }
{
    let items = Items {
        tokens: *tokens,
        values: &values[..tokens.roles.len()],
        types: counts.types(),
    };
    let records = Records {
        items,
        index,
        counts,
    };
    write_file(&records, start, file) as u16
}

// 36: "after 35, a table limit or the range of Int is passed"; else names are numbered.
pub fn ask_limits<const N: usize>(
    linked: &Linked,
    start: usize,
    values: &mut [u16],
    table: &mut NameTable<N>,
    file: &mut [u8],
) -> Result<u16, ReadRefusal>
    requires declared { DeclaredText linked.now.tokens start values.old file.old }
    requires room { (length linked.now.tokens.roles.now ≤ length values.old) × (length linked.now.tokens.roles.now ≤ N) }
    ensures { ReadAs result file.new (read_of linked.now.tokens.text.bytes.now file.old) }
{
    let tokens = &linked.tokens;
    let mut index = [0u16; Index::RECORDS];
    let counts = match count_records(tokens, &mut index) {
        Ok(counts) => counts,
        Err(i) => return Err(ReadRefusal::at_token(ReadError::NoRoom, tokens, i)),
    };
    number_rest(linked, values, table);
    Ok(write(tokens, values, &index, start, counts, file))
}
