// Fields and methods of a class, by their names.
ghost use Rattle.std.specs.Prelude.{◌≡◌, ℕ, ◌<◌, Some};
ghost use Rattle.limits.specs.Limits.{CLASS_FIELDS};
ghost use Rattle.script.specs.Reading.{program_of};
ghost use Rattle.sections.specs.Laid.{found_of};
ghost use Rattle.typing.specs.Members.{fields_of};
ghost use Rattle.classes.specs.Defined.{field_number, MethodIs};

use members::find_own;
use script::Section;
use subtypes::{Declared, Script};

// The place of the field f among those that the type t declares, which only a class does.
pub fn field_place(script: &Script, t: u16, f: u16) -> Option<usize>
    ensures value { result ≡ found_of (field_number (fields_of (program_of script.now.bytes.now) t) f) }
    ensures by_index { (k : ℕ) → result ≡ Some k → k < CLASS_FIELDS }
{
    let Declared::Class(c) = script.declared_as(t) else {
        return None;
    };
    let i = find_own(script, Section::Fields, c, f)?;
    Some(i - script.first_of(Section::Fields, c))
}

// The record of the method m that the type t defines, which only a class does.
pub fn method_record(script: &Script, t: u16, m: u16) -> Option<usize>
    ensures { MethodIs script.now.bytes.now t m result }
{
    let Declared::Class(c) = script.declared_as(t) else {
        return None;
    };
    find_own(script, Section::Methods, c, m)
}
