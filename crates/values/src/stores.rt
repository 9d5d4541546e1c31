// The stores of a block: do its objects and bindings fit?
ghost use Rattle.std.specs.Prelude.{◌≡◌, ◌+◌, ◌<◌, ◌≤◌};
ghost use Rattle.limits.specs.Limits.{BINDINGS, CLASS_FIELDS};
ghost use Rattle.script.specs.declared.Section.TheVariants.{Fields};
ghost use Rattle.script.specs.Lists.{run};
ghost use Rattle.script.specs.Section.{count_of};
ghost use Rattle.script.specs.Reading.{field_at};
ghost use Rattle.machine.specs.Config.{code_of};
ghost use Rattle.machine.specs.Machine.{field_count, object};
ghost use Rattle.machine.specs.Decide.{object_test, value_fits_test, fields_test, binding_test, bindings_test};
ghost use Rattle.block.specs.declared.Area.TheVariants.{Objects, Bindings};
ghost use Rattle.block.specs.Layout.{counted};
ghost use Rattle.parts.specs.Parts.{config_read, objects_in, objects_test};
ghost use Rattle.environments.specs.Chains.{binding_at};
ghost use Rattle.values.specs.Objects.{ObjectsInOrder, field_value_at, object_at, object_fits};

use crate::wants::{meets, null_meets};
use block::{Area, Layout};
use limits::Limits;
use machine::{Value, Want};
use script::Section;
use sections::{own_count, record_word};
use subtypes::{Declared, Script};

// Does object n fit what is wanted? It is there, and its class is the type wanted or below it.
fn object_meets(script: &Script, block: &[u8; Limits::BLOCK], n: u16, want: Want) -> bool
    requires { ObjectsInOrder script.now.bytes.now block.now }
    ensures { result ≡ object_test (code_of script.now.bytes.now) want (object (objects_in script.now.bytes.now block.now) n) }
{
    let o = n as usize;
    if areas::count(block, Area::Objects) <= o {
        return false;
    }
    let class = areas::word(block, Area::Objects, o, Layout::CLASS);
    meets(script, class, want)
}

// Does a value fit what is wanted? An object goes by its class, and a number, which its type keeps in range, by Int: "value types fit".
pub fn value_fits(script: &Script, block: &[u8; Limits::BLOCK], v: Value, want: Want) -> bool
    requires { ObjectsInOrder script.now.bytes.now block.now }
    ensures { result ≡ value_fits_test (code_of script.now.bytes.now) (objects_in script.now.bytes.now block.now) v want }
{
    match v {
        Value::Null => null_meets(script.bytes, want),
        Value::Ref(n) => object_meets(script, block, n, want),
        Value::Int(_z) => meets(script, script.int_of(), want),
    }
}

// Do the values of object i fit the types of the fields whose records are the `count` from `from` on? WF-FIELDS.
fn fields_fit(
    script: &Script,
    block: &[u8; Limits::BLOCK],
    i: usize,
    from: usize,
    count: usize,
) -> bool
    requires { ObjectsInOrder script.now.bytes.now block.now × (i < counted block.now Objects) × (from + count ≤ count_of script.now.bytes.now Fields) ×
        (count ≤ CLASS_FIELDS) }
    ensures { result ≡ fields_test (code_of script.now.bytes.now) (objects_in script.now.bytes.now block.now) (run (field_at script.now.bytes.now) from count)
        (run (field_value_at block.now i) 0 count) }
{
    for j in 0..count {
        let t = record_word(script.bytes, Section::Fields, from + j, 1);
        let v = areas::field(block, i, j);
        if !value_fits(script, block, v, Want::Upto(t)) {
            return false;
        }
    }
    true
}

// Is the class of object i a class, and does the value of each of its fields fit? WF-HEAP of one object.
fn object_fits(script: &Script, block: &[u8; Limits::BLOCK], i: usize) -> bool
    requires { ObjectsInOrder script.now.bytes.now block.now × (i < counted block.now Objects) }
    ensures { result ≡ object_fits (code_of script.now.bytes.now) (objects_in script.now.bytes.now block.now)
        (object_at (field_count script.now.bytes.now) block.now i) }
{
    let class = areas::word(block, Area::Objects, i, Layout::CLASS);
    let Declared::Class(c) = script.declared_as(class) else {
        return false;
    };
    let from = script.first_of(Section::Fields, c);
    let count = own_count(script.bytes, Section::Fields, c);
    fields_fit(script, block, i, from, count)
}

// Do all objects fit? Γ ⊢ H of Figure 7, WF-HEAP: "value types fit".
pub fn objects_fit(script: &Script, block: &[u8; Limits::BLOCK]) -> bool
    requires { ObjectsInOrder script.now.bytes.now block.now }
    ensures { result ≡ objects_test (code_of script.now.bytes.now) (objects_in script.now.bytes.now block.now) }
{
    let count = areas::count(block, Area::Objects);
    for i in 0..count {
        if !object_fits(script, block, i) {
            return false;
        }
    }
    true
}

// Is the type of binding i a type (WF-ENV), does its value fit it (WF-VARS), and has it a link to an earlier binding or to none? "links run to earlier
// bindings"
fn binding_fits(script: &Script, block: &[u8; Limits::BLOCK], i: usize) -> bool
    requires { ObjectsInOrder script.now.bytes.now block.now × (counted block.now Bindings ≤ BINDINGS) × (i < counted block.now Bindings) }
    ensures { result ≡ binding_test (code_of script.now.bytes.now) (objects_in script.now.bytes.now block.now) i (binding_at block.now i) }
{
    let t = areas::word(block, Area::Bindings, i, Layout::TYPE);
    if script.int_of() < t {
        return false;
    }
    let link = areas::word(block, Area::Bindings, i, Layout::LINK);
    if i < link as usize {
        return false;
    }
    let v = areas::value(block, Area::Bindings, i, Layout::BOUND);
    value_fits(script, block, v, Want::Upto(t))
}

// Do all bindings fit? Γ ⊢ V of Figure 7: "value types fit" and "links run to earlier bindings". The newest is asked first.
pub fn bindings_fit(script: &Script, block: &[u8; Limits::BLOCK]) -> bool
    requires { ObjectsInOrder script.now.bytes.now block.now × (counted block.now Bindings ≤ BINDINGS) }
    ensures { result ≡ bindings_test (code_of script.now.bytes.now) (objects_in script.now.bytes.now block.now)
        (config_read script.now.bytes.now block.now).stores.bindings }
{
    let count = areas::count(block, Area::Bindings);
    for i in (0..count).rev() {
        if !binding_fits(script, block, i) {
            return false;
        }
    }
    true
}
