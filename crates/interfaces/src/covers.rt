// Question 10: has each class every method of its interface, with the same types?
ghost use Rattle.std.specs.Prelude.{◌≡◌, suc, ◌<◌};
ghost use Rattle.script.specs.declared.Section.TheVariants.{Interfaces, Signatures, Classes};
ghost use Rattle.script.specs.Section.{count_of, record_word};
ghost use Rattle.script.specs.Reading.{class_at, program_of};
ghost use Rattle.script.specs.Asking.{Decides, lowest_in};
ghost use Rattle.script.specs.Statements.{InterfaceWord};
ghost use Rattle.sections.specs.Laid.{passed_of};
ghost use Rattle.typing.specs.Check.{classes_test};
ghost use Rattle.typing.specs.Published.{MsigsFunction};
ghost use Rattle.typing.specs.Refusals.{ClassIs};
ghost use Rattle.interfaces.specs.Cover.{Defines, Covers, Covered};

use limits::Limits;
use members::{find_own, types_at};
use script::Section;
use sections::{count_of, own_count, record_at, record_word};
use subtypes::Script;

// Has class c a method of signature i's name, with the same types?
fn defines(script: &Script, c: usize, i: usize) -> bool
    requires { (c < count_of script.now.bytes.now Classes) × (i < count_of script.now.bytes.now Signatures) }
    ensures { Decides (Defines script.now.bytes.now c i) result }
{
    let name = record_word(script.bytes, Section::Signatures, i, 0);
    let Some(j) = find_own(script, Section::Methods, c, name) else {
        return false;
    };
    types_at(script.bytes, Section::Methods, j) == types_at(script.bytes, Section::Signatures, i)
}

// Has class c every method of the interface of record i, which is a list?
fn covers_list(script: &Script, c: usize, i: usize) -> bool
    requires { (c < count_of script.now.bytes.now Classes) × (i < count_of script.now.bytes.now Interfaces) ×
        (record_word script.now.bytes.now Interfaces i 0 ≡ 1 → ⊥) }
    ensures { Decides (Covers script.now.bytes.now c (suc i)) result }
{
    let from = script.first_of(Section::Signatures, i);
    let end = from + own_count(script.bytes, Section::Signatures, i);
    for j in from..end {
        if !defines(script, c, j) {
            return false;
        }
    }
    true
}

// A form is a word of the script, of which every other value but 1 is no join: an enum would only name the one comparison.
// Has class c every method of the interface t? An interface that it covers is marked, so that no ancestor is gone through twice.
fn covers(script: &Script, c: usize, t: u16, marks: &mut [u8]) -> bool
    requires { (c < count_of script.now.bytes.now Classes) × InterfaceWord script.now.bytes.now t × Covered script.now.bytes.now c marks.old }
    ensures { Decides (Covers script.now.bytes.now c t) result × Covered script.now.bytes.now c marks.new }
{
    let i = t as usize - 1;
    let mark = marks[i];
    if mark == 1 {
        return true;
    }
    let form = record_word(script.bytes, Section::Interfaces, i, 0);
    if form != 1 {
        if !covers_list(script, c, i) {
            return false;
        }
        marks[i] = 1;
        return true;
    }
    let left = record_word(script.bytes, Section::Interfaces, i, 1);
    if !covers(script, c, left, marks) {
        return false;
    }
    let right = record_word(script.bytes, Section::Interfaces, i, 2);
    if !covers(script, c, right, marks) {
        return false;
    }
    marks[i] = 1;
    true
}

// Has class c every method of its interface?
fn implements(script: &Script, c: usize) -> bool
    requires { c < count_of script.now.bytes.now Classes }
    ensures { Decides (ClassIs (program_of script.now.bytes.now) (class_at script.now.bytes.now c)) result }
{
    let mut marks: [u8; Limits::INTERFACES] = [0; Limits::INTERFACES];
    let t = record_word(script.bytes, Section::Classes, c, 0);
    covers(script, c, t, &mut marks)
}

// 10. Has each class every method of its interface, with the same types? Or the place of a no.
pub fn check_classes(script: &Script) -> Result<(), u16>
    requires { MsigsFunction (program_of script.now.bytes.now) }
    ensures { result ≡ passed_of (lowest_in script.now.bytes.now (classes_test script.now.bytes.now (program_of script.now.bytes.now))) }
{
    let n = count_of(script.bytes, Section::Classes);
    for c in 0..n {
        if !implements(script, c) {
            return Err(record_at(script.bytes, Section::Classes, c) as u16);
        }
    }
    Ok(())
}
