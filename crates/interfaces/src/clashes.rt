// Question 9, where its answer is plain: no two signatures of the whole script have one name and different types.
ghost use Rattle.std.specs.Prelude.{◌≡◌, true, false, ◌<◌};
ghost use Rattle.std.proofs.Math.Option.{none};
ghost use Rattle.script.specs.declared.Section.TheVariants.{Signatures};
ghost use Rattle.script.specs.Section.{count_of};
ghost use Rattle.script.specs.Reading.{program_of};
ghost use Rattle.script.specs.Asking.{lowest_in};
ghost use Rattle.typing.specs.Check.{joins_test};
ghost use Rattle.interfaces.specs.Cover.{Agrees, Unclashed};

use members::{Types, types_at};
use script::Section;
use sections::{count_of, record_word};
use subtypes::Script;

// Has signature j another name, or these types? Few have the name, so it is read first.
fn agrees(script: &Script, j: usize, name: u16, types: Types) -> bool
    requires { j < count_of script.now.bytes.now Signatures }
    ensures { result ≡ true → Agrees script.now.bytes.now name types.param types.result j }
{
    record_word(script.bytes, Section::Signatures, j, 0) != name
        || types_at(script.bytes, Section::Signatures, j) == types
}

// Has a later signature the name of signature i and another type?
fn clashes(script: &Script, i: usize) -> bool
    requires { i < count_of script.now.bytes.now Signatures }
    ensures { result ≡ false → Unclashed script.now.bytes.now i }
{
    let name = record_word(script.bytes, Section::Signatures, i, 0);
    let types = types_at(script.bytes, Section::Signatures, i);
    let n = count_of(script.bytes, Section::Signatures);
    for j in i + 1..n {
        if !agrees(script, j, name, types) {
            return true;
        }
    }
    false
}

// Have all signatures of one name the same types? Then so have all meanings of a name in a join, and question 9 gets a yes.
pub fn no_clash(script: &Script) -> bool
    ensures { result ≡ true → lowest_in script.now.bytes.now (joins_test script.now.bytes.now (program_of script.now.bytes.now)) ≡ none }
{
    let n = count_of(script.bytes, Section::Signatures);
    for i in 0..n {
        if clashes(script, i) {
            return false;
        }
    }
    true
}
