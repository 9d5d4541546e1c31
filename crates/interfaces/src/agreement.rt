// Question 9: whether the meanings of a method name agree in each join.
// Each name is looked up in all interfaces at once, so the join at fault is found name by name.
ghost use Rattle.std.specs.Prelude.{◌≡◌, ℕ, ◌<◌, ◌≤◌};
ghost use Rattle.script.specs.declared.Section.TheVariants.{Interfaces, Signatures};
ghost use Rattle.script.specs.Section.{count_of};
ghost use Rattle.script.specs.Reading.{signature_at, program_of};
ghost use Rattle.script.specs.Asking.{lowest_in};
ghost use Rattle.sections.specs.Laid.{passed_of};
ghost use Rattle.typing.specs.Check.{same_types, joins_test};
ghost use Rattle.members.specs.Lookup.{Meanings, NameTable, join_by};
ghost use Rattle.interfaces.specs.Cover.{FirstAt};

use crate::clashes::no_clash;
use limits::Limits;
use members::{meanings, types_at};
use script::Section;
use sections::{count_of, record_at, record_word};
use subtypes::Script;

// Have signatures i and j the same types?
fn same_types(script: &Script, i: usize, j: usize) -> bool
    requires { (i < count_of script.now.bytes.now Signatures) × (j < count_of script.now.bytes.now Signatures) }
    ensures { result ≡ same_types (signature_at script.now.bytes.now i) (signature_at script.now.bytes.now j) }
{
    types_at(script.bytes, Section::Signatures, i) == types_at(script.bytes, Section::Signatures, j)
}

// A form is a word of the script, of which every other value but 1 is no join: an enum would only name the one comparison.
// Do the parents of the join of record i agree on the name that the table is of?
fn join_agrees(script: &Script, table: &[u16], i: usize) -> bool
    requires { NameTable script.now.bytes.now table.now × (i < count_of script.now.bytes.now Interfaces) }
    ensures { (m : ℕ) → Meanings script.now.bytes.now m (count_of script.now.bytes.now Interfaces) table.now →
        result ≡ join_by script.now.bytes.now m i }
{
    let form = record_word(script.bytes, Section::Interfaces, i, 0);
    if form != 1 {
        return true;
    }
    let left = record_word(script.bytes, Section::Interfaces, i, 1);
    let first = table[left as usize - 1];
    if first == 0 {
        return true;
    }
    let right = record_word(script.bytes, Section::Interfaces, i, 2);
    let second = table[right as usize - 1];
    if second == 0 {
        return true;
    }
    same_types(script, first as usize - 1, second as usize - 1)
}

// The first join before `upto` whose parents disagree on the name that the table is of.
fn lowest_join(script: &Script, table: &[u16], upto: usize) -> Option<usize>
    requires { NameTable script.now.bytes.now table.now × (upto ≤ count_of script.now.bytes.now Interfaces) }
    ensures { (m : ℕ) → Meanings script.now.bytes.now m (count_of script.now.bytes.now Interfaces) table.now →
        FirstAt (join_by script.now.bytes.now m) upto result }
{
    for i in 0..upto {
        if !join_agrees(script, table, i) {
            return Some(i);
        }
    }
    None
}

// The first join before `upto` whose parents disagree on the method name m.
fn lowest_for(script: &Script, m: u16, upto: usize) -> Option<usize>
    requires { upto ≤ count_of script.now.bytes.now Interfaces }
    ensures { FirstAt (join_by script.now.bytes.now m) upto result }
{
    let mut table: [u16; Limits::INTERFACES] = [0; Limits::INTERFACES];
    let n = count_of(script.bytes, Section::Interfaces);
    meanings(script, m, n, &mut table);
    lowest_join(script, &table, upto)
}

// 9. Do all meanings of a method name in a join have the same types? Or the place of a no.
pub fn check_joins(script: &Script) -> Result<(), u16>
    ensures { result ≡ passed_of (lowest_in script.now.bytes.now (joins_test script.now.bytes.now (program_of script.now.bytes.now))) }
{
    if no_clash(script) {
        return Ok(());
    }
    let n = count_of(script.bytes, Section::Interfaces);
    let mut fault = None;
    for k in 0..count_of(script.bytes, Section::Signatures) {
        let m = record_word(script.bytes, Section::Signatures, k, 0);
        let upto = fault.unwrap_or(n);
        fault = lowest_for(script, m, upto).or(fault);
    }
    match fault {
        Some(i) => Err(record_at(script.bytes, Section::Interfaces, i) as u16),
        None => Ok(()),
    }
}
