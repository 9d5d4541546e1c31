// The move of a read.
ghost use Rattle.std.specs.Prelude.{◌≡◌, List, ℕ, ◌<◌, length, Some};
ghost use Rattle.std.proofs.Math.Option.{some};
ghost use Rattle.words.specs.Word.{bytes};
ghost use Rattle.limits.specs.Limits.{BLOCK, OBJECTS};
ghost use Rattle.script.specs.Reading.{program_of};
ghost use Rattle.machine.specs.declared.Value.{Value};
ghost use Rattle.machine.specs.declared.Frame.{Frame};
ghost use Rattle.machine.specs.Config.{Object, Stores, running, code_of};
ghost use Rattle.machine.specs.Machine.{scope, find, object, field_value, select_target};
ghost use Rattle.typing.specs.Members.{fields_of};
ghost use Rattle.block.specs.declared.Area.TheVariants.{Objects};
ghost use Rattle.block.specs.Values.{Storable};
ghost use Rattle.block.specs.Block.{Parts, laid};
ghost use Rattle.block.specs.Fits.{Few, StorableIn};
ghost use Rattle.environments.specs.Chains.{Chain};
ghost use Rattle.state.specs.Represents.{Rest, StateAt, SomeState};
ghost use Rattle.moves.specs.Performs.{Performs, OwnFields, value_found};

use crate::{Effect, Member, fails, gives, target_of};
use block::{Area, Layout};
use limits::Limits;
use machine::Value;
use subtypes::Script;

// The value of field f of the object o, where its class has the field.
fn field_value(script: &Script, block: &[u8; Limits::BLOCK], o: u16, f: u16) -> Option<Value>
    requires { o < OBJECTS }
    ensures value { (p : Parts) (y : Object) →
        block.now ≡ bytes (laid p) →
        Few p →
        StorableIn p Objects →
        OwnFields (code_of script.now.bytes.now) p.objects →
        object p.objects o ≡ some y →
        result ≡ value_found (field_value (fields_of (program_of script.now.bytes.now) y.class) y.fields f) }
    ensures storable { (v : Value) → result ≡ Some v → Storable v }
{
    let i = o as usize;
    let class = areas::word(block, Area::Objects, i, Layout::CLASS);
    let k = classes::field_place(script, class, f)?;
    Some(areas::field(block, i, k))
}

// "a read gives the field"; "null fails the thread."
pub fn read_field(
    script: &Script,
    block: &mut [u8; Limits::BLOCK],
    i: usize,
    field: Member,
) -> Effect
    requires { SomeState block.old i × Chain block.old field.env }
    ensures { (rest : Rest) (st : Stores) (a : ℕ) (fs : List Frame) →
        OwnFields (code_of script.now.bytes.now) st.objects →
        StateAt block.old i rest st (running a field.env fs) →
        Performs block.old i rest
        (select_target (code_of script.now.bytes.now) st fs field.name (find (scope st.bindings field.env) field.target))
        block.new result }
{
    let Some(value) = target_of(block, field.env, field.target) else {
        return Effect::Still;
    };
    let Value::Ref(o) = value else {
        return fails(block, i);
    };
    let Some(v) = field_value(script, block, o, field.name) else {
        return Effect::Still;
    };
    gives(block, i, v)
}
