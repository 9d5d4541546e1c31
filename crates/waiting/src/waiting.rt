// Moves of a thread with a value at its innermost frame: a cast, a lock, a write.
ghost use Rattle.std.specs.Prelude.{◌≡◌, false, List, ◌∷◌, ℕ, ◌<◌, ◌≤◌, length};
ghost use Rattle.std.proofs.Math.Option.{some};
ghost use Rattle.limits.specs.Limits.{BLOCK, OBJECTS};
ghost use Rattle.script.specs.Reading.{program_of};
ghost use Rattle.machine.specs.declared.Frame.{Frame};
ghost use Rattle.machine.specs.declared.Frame.TheVariants.{Casts as casts, Locks as locks};
ghost use Rattle.machine.specs.Config as machine;
ghost use Rattle.machine.specs.Config.{code_of, Object, Stores, returning};
ghost use Rattle.machine.specs.Machine.{scope, find, object, moved, with_shut, set_fields, set_field, update_target};
ghost use Rattle.typing.specs.Members.{fields_of};
ghost use Rattle.block.specs.declared.Area.TheVariants.{Objects};
ghost use Rattle.block.specs.Layout.{counted};
ghost use Rattle.block.specs.Values.{Storable};
ghost use Rattle.state.specs.Represents.{Rest, StateAt};
ghost use Rattle.moves.specs.Performs.{Performs, OwnFields};
ghost use Rattle.moves.specs.AtFrame.{AtFrame, AtFrameIn};

use block::{Area, Layout};
use limits::Limits;
use machine::Value;
use moves::{Effect, Member, fails, target_of};
use subtypes::Script;
use tree::Cell;

// "a waiting cast vanishes"
pub fn drop_cast(block: &mut [u8; Limits::BLOCK], i: usize, v: Value) -> Effect
    requires { AtFrame block.old i v }
    ensures { (rest : Rest) (st : Stores) (n : ℕ) (fs : List Frame) →
        StateAt block.old i rest st (returning v (casts n ∷ fs)) →
        Performs block.old i rest (moved st (returning v fs)) block.new result }
{
    state::pop(block, i, Cell::Returning(v));
    Effect::Moved
}

// The object o opened, if there is one.
fn open_object(block: &mut [u8; Limits::BLOCK], o: u16)
    requires { counted block.old Objects ≤ OBJECTS }
    ensures { (i : ℕ) (rest : Rest) (st : Stores) (u : machine.Tree) →
        StateAt block.old i rest st u →
        StateAt block.new i rest (with_shut false st o) u }
{
    let n = o as usize;
    if n < areas::count(block, Area::Objects) {
        areas::set_shut(block, n, false);
    }
}

// "A value at a lock frame opens the object."
pub fn open_lock(block: &mut [u8; Limits::BLOCK], i: usize, v: Value, o: u16) -> Effect
    requires { AtFrame block.old i v }
    ensures { (rest : Rest) (st : Stores) (fs : List Frame) →
        StateAt block.old i rest st (returning v (locks o ∷ fs)) →
        Performs block.old i rest (moved (with_shut false st o) (returning v fs)) block.new result }
{
    open_object(block, o);
    state::pop(block, i, Cell::Returning(v));
    Effect::Moved
}

// v stored in the field f of the object o, if its class has one.
fn write_field(script: &Script, block: &mut [u8; Limits::BLOCK], o: usize, f: u16, v: Value)
    requires { (o < OBJECTS) × Storable v }
    ensures { (i : ℕ) (rest : Rest) (st : Stores) (u : machine.Tree) (y : Object) →
        StateAt block.old i rest st u →
        OwnFields (code_of script.now.bytes.now) st.objects →
        object st.objects o ≡ some y →
        StateAt block.new i rest
        (record {
          objects = set_fields (set_field v (fields_of (program_of script.now.bytes.now) y.class) y.fields f) st.objects o;
          bindings = st.bindings;
        })
        u }
{
    let class = areas::word(block, Area::Objects, o, Layout::CLASS);
    if let Some(k) = classes::field_place(script, class, f) {
        areas::put_field(block, o, k, v);
    }
}

// "a waiting write stores and gives null"; "Targets are tested after the argument; null fails the thread."
pub fn store_value(
    script: &Script,
    block: &mut [u8; Limits::BLOCK],
    i: usize,
    v: Value,
    field: Member,
) -> Effect
    requires { AtFrameIn block.old i field.env v }
    ensures { (rest : Rest) (st : Stores) (g : Frame) (fs : List Frame) →
        StateAt block.old i rest st (returning v (g ∷ fs)) →
        OwnFields (code_of script.now.bytes.now) st.objects →
        Performs block.old i rest
        (update_target (code_of script.now.bytes.now) st fs field.name v (find (scope st.bindings field.env) field.target))
        block.new result }
{
    let Some(value) = target_of(block, field.env, field.target) else {
        return Effect::Still;
    };
    let Value::Ref(o) = value else {
        return fails(block, i);
    };
    state::pop(block, i, Cell::Returning(Value::Null));
    write_field(script, block, o as usize, field.name, v);
    Effect::Moved
}
