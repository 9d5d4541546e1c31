// The fields of a new object: "The initial value of a field now follows its type, null or 0".
ghost use Rattle.std.specs.Prelude.{◌+◌, ◌≤◌, length, replicate};
ghost use Rattle.limits.specs.Limits.{CLASS_FIELDS};
ghost use Rattle.script.specs.declared.Section.TheVariants.{Fields};
ghost use Rattle.script.specs.Lists.{run};
ghost use Rattle.script.specs.Section.{count_of};
ghost use Rattle.script.specs.Reading.{field_at, program_of};
ghost use Rattle.typing.specs.Members.{fields_of};
ghost use Rattle.machine.specs.declared.Value.TheVariants.{Null as nil};
ghost use Rattle.machine.specs.Machine.{initials};
ghost use Rattle.initials.specs.Initials.{NewObject, FieldsBecome};

use limits::Limits;
use machine::Value;
use script::Section;
use sections::{own_count, record_word};
use subtypes::{Declared, Script};

// Puts 0 into those fields of object n, the newest, that are of type Int. Its fields are the `count` from record `from` on.
fn fill_numbers(
    script: &Script,
    block: &mut [u8; Limits::BLOCK],
    n: usize,
    from: usize,
    count: usize,
)
    requires { (from + count ≤ count_of script.now.bytes.now Fields) × (count ≤ CLASS_FIELDS) × NewObject block.old n count }
    ensures { FieldsBecome block.old block.new n (replicate count nil)
        (initials (program_of script.now.bytes.now) (run (field_at script.now.bytes.now) from count)) }
{
    let int = script.int_of();
    for k in 0..count {
        if record_word(script.bytes, Section::Fields, from + k, 1) == int {
            areas::put_field(block, n, k, Value::Int(0));
        }
    }
}

// Gives the fields of object n, the newest and of this class, their initial values. They are null, which only a field of type Int is not to be.
pub fn start_fields(script: &Script, block: &mut [u8; Limits::BLOCK], n: usize, class: u16)
    requires { NewObject block.old n (length (fields_of (program_of script.now.bytes.now) class)) }
    ensures { FieldsBecome block.old block.new n (replicate (length (fields_of (program_of script.now.bytes.now) class)) nil)
        (initials (program_of script.now.bytes.now) (fields_of (program_of script.now.bytes.now) class)) }
{
    let Declared::Class(c) = script.declared_as(class) else {
        return;
    };
    let from = script.first_of(Section::Fields, c);
    let count = own_count(script.bytes, Section::Fields, c);
    fill_numbers(script, block, n, from, count);
}
