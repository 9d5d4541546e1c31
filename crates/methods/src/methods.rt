// The call of a method, with the value as its argument.
ghost use Rattle.std.specs.Prelude.{◌≡◌, List, ◌∷◌, ℕ, ◌+◌, ◌-◌, ◌<◌, ◌≤◌};
ghost use Rattle.words.specs.Word.{bytes};
ghost use Rattle.limits.specs.Limits.{OBJECTS, BINDINGS};
ghost use Rattle.machine.specs.declared.Frame.{Frame};
ghost use Rattle.machine.specs.Config as machine;
ghost use Rattle.machine.specs.Config.{code_of, Stores, returning};
ghost use Rattle.machine.specs.Machine.{scope, find, object, call_bindings, call_object, call_target};
ghost use Rattle.block.specs.declared.Area.TheVariants.{Objects, Bindings};
ghost use Rattle.block.specs.Layout.{counted};
ghost use Rattle.block.specs.Values.{Storable};
ghost use Rattle.block.specs.Block.{Parts, laid};
ghost use Rattle.state.specs.Represents.{Rest, StateAt};
ghost use Rattle.moves.specs.Performs.{Performs};
ghost use Rattle.moves.specs.AtFrame.{AtFrame, AtFrameIn};

use block::{Area, Layout};
use limits::Limits;
use machine::{Store, Value};
use moves::{Effect, Member, fails, target_of};
use script::Section;
use subtypes::Script;
use tree::Cell;

// A call of the method of an object that is there, with its argument.
#[derive(Clone, Copy)]
struct Call {
    value: Value,
    object: u16,
    method: u16,
}

// The two bindings of a call, after n others: `this` with the object's class, and the parameter with its declared type.
fn add_call(block: &mut [u8; Limits::BLOCK], n: usize, class: u16, o: u16, param: u16, v: Value)
    requires { (n ≡ counted block.old Bindings) × (n + 2 ≤ BINDINGS) × (o < OBJECTS) × Storable v × ((p : Parts) × (block.old ≡ bytes (laid p))) }
    ensures { (i : ℕ) (rest : Rest) (st : Stores) (u : machine.Tree) →
        StateAt block.old i rest st u →
        StateAt block.new i rest (record { objects = st.objects; bindings = call_bindings class o param v st.bindings }) u }
{
    areas::add_binding(block, 0, class, Value::Ref(o), 0);
    areas::add_binding(block, 1, param, v, (n + 1) as u16);
}

// "a waiting call adds two .. and enters the body with no others", where the object o is there.
fn call_object(script: &Script, block: &mut [u8; Limits::BLOCK], i: usize, call: Call) -> Effect
    requires { AtFrame block.old i call.value × (call.object < counted block.old Objects) }
    ensures { (rest : Rest) (st : Stores) (g : Frame) (fs : List Frame) →
        StateAt block.old i rest st (returning call.value (g ∷ fs)) →
        Performs block.old i rest
        (call_object (code_of script.now.bytes.now) st fs call.method call.value (BINDINGS - counted block.old Bindings)
        call.object (object st.objects call.object))
        block.new result }
{
    let class = areas::word(block, Area::Objects, call.object as usize, Layout::CLASS);
    let Some(j) = classes::method_record(script, class, call.method) else {
        return Effect::Still;
    };
    let n = areas::count(block, Area::Bindings);
    if Limits::BINDINGS < n + 2 {
        return Effect::Full(Store::Bindings);
    }
    let param = sections::record_word(script.bytes, Section::Methods, j, 1);
    let body = sections::record_word(script.bytes, Section::Methods, j, 3);
    add_call(block, n, class, call.object, param, call.value);
    state::pop(block, i, Cell::Running(body, (n + 2) as u16));
    Effect::Moved
}

// "a waiting call adds two, this with the object's class and the parameter with its declared type, and enters the body with no others"
pub fn enter_method(
    script: &Script,
    block: &mut [u8; Limits::BLOCK],
    i: usize,
    v: Value,
    method: Member,
) -> Effect
    requires { AtFrameIn block.old i method.env v }
    ensures { (rest : Rest) (st : Stores) (g : Frame) (fs : List Frame) →
        StateAt block.old i rest st (returning v (g ∷ fs)) →
        Performs block.old i rest
        (call_target (code_of script.now.bytes.now) st fs method.name v (BINDINGS - counted block.old Bindings)
        (find (scope st.bindings method.env) method.target))
        block.new result }
{
    let Some(value) = target_of(block, method.env, method.target) else {
        return Effect::Still;
    };
    let Value::Ref(o) = value else {
        return fails(block, i);
    };
    let call = Call {
        value: v,
        object: o,
        method: method.name,
    };
    call_object(script, block, i, call)
}
