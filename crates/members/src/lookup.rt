// Look-ups of fields and methods by their names.
ghost use Rattle.std.specs.Prelude.{◌≡◌, ◌-◌, ◌<◌, ◌≤◌, length};
ghost use Rattle.limits.specs.Limits.{INTERFACES};
ghost use Rattle.script.specs.declared.Section.TheVariants.{Interfaces};
ghost use Rattle.script.specs.Section.{size_of, count_of};
ghost use Rattle.script.specs.Reading.{program_of};
ghost use Rattle.sections.specs.Laid.{Laid, found_of, owner_of};
ghost use Rattle.typing.specs.Members.{method_in, field_in};
ghost use Rattle.members.specs.Lookup.{types_in, member_of};
ghost use Rattle.members.specs.Lookup.{own_named, MeaningIs, Meanings};

use crate::Types;
use limits::Limits;
use script::Section;
use sections::{find_name, own_count, record_word};
use subtypes::{Declared, Script};

// The first record of owner o's run in section k that has the name x.
pub fn find_own(script: &Script, k: Section, o: usize, x: u16) -> Option<usize>
    requires { o < count_of script.now.bytes.now (owner_of k) }
    ensures { result ≡ found_of (own_named script.now.bytes.now k o x) }
{
    let from = script.first_of(k, o);
    let count = own_count(script.bytes, k, o);
    find_name(script.bytes, k, from, from + count, x)
}

// The type of field f of the type t, which only a class has.
pub fn field_type(script: &Script, t: u16, f: u16) -> Option<u16>
    ensures { result ≡ found_of (field_in (program_of script.now.bytes.now) t f) }
{
    let Declared::Class(c) = script.declared_as(t) else {
        return None;
    };
    let i = find_own(script, Section::Fields, c, f)?;
    Some(record_word(script.bytes, Section::Fields, i, 1))
}

// A form is a word of the script, of which every other value but 1 is no join: an enum would only name the one comparison.
// What the method name m means in the interface of record i, where the table has what it means in those before.
fn meaning_of(script: &Script, m: u16, i: usize, table: &[u16]) -> u16
    requires { (i < count_of script.now.bytes.now Interfaces) × Meanings script.now.bytes.now m i table.now }
    ensures { MeaningIs script.now.bytes.now m i result }
{
    let form = record_word(script.bytes, Section::Interfaces, i, 0);
    if form != 1 {
        let Some(j) = find_own(script, Section::Signatures, i, m) else {
            return 0;
        };
        return (j + 1) as u16;
    }
    let left = record_word(script.bytes, Section::Interfaces, i, 1);
    let word = table[left as usize - 1];
    if word != 0 {
        return word;
    }
    let right = record_word(script.bytes, Section::Interfaces, i, 2);
    table[right as usize - 1]
}

// A table of words, 0 for no meaning: one of Options would take twice the stack.
// Stores what the method name m means in each of the first n interfaces. Parents are earlier, so each is computed once.
pub fn meanings(script: &Script, m: u16, n: usize, table: &mut [u16])
    requires { (n ≤ count_of script.now.bytes.now Interfaces) × (length table.old ≡ INTERFACES) }
    ensures { Meanings script.now.bytes.now m n table.new }
{
    for i in 0..n {
        let word = meaning_of(script, m, i, table);
        table[i] = word;
    }
}

// What the method name m means in the interface of record i.
fn meaning_in(script: &Script, m: u16, i: usize) -> u16
    requires { i < count_of script.now.bytes.now Interfaces }
    ensures { MeaningIs script.now.bytes.now m i result }
{
    let mut table: [u16; Limits::INTERFACES] = [0; Limits::INTERFACES];
    meanings(script, m, i + 1, &mut table);
    table[i]
}

// Layout is all that it asks, as `record_word` does.
// The types of the signature or method of record i.
pub fn types_at(s: &[u8], k: Section, i: usize) -> Types
    requires { Laid s.now × (i < count_of s.now k) × (5 < size_of k) }
    ensures { result ≡ types_in s.now k i }
{
    Types {
        param: record_word(s, k, i, 1),
        result: record_word(s, k, i, 2),
    }
}

// The types of method m of the type t: of an interface its first meaning there, of a class its own.
pub fn method_of(script: &Script, t: u16, m: u16) -> Option<Types>
    ensures { result ≡ member_of (method_in (program_of script.now.bytes.now) t m) }
{
    match script.declared_as(t) {
        Declared::Interface(i) => {
            let word = meaning_in(script, m, i);
            if word == 0 {
                return None;
            }
            Some(types_at(script.bytes, Section::Signatures, word as usize - 1))
        }
        Declared::Class(c) => {
            let j = find_own(script, Section::Methods, c, m)?;
            Some(types_at(script.bytes, Section::Methods, j))
        }
        Declared::Neither => None,
    }
}
