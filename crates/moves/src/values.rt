// Moves that give a value: null, a constant, a variable, a new object. A field is read in `fields`.
ghost use Rattle.std.specs.Prelude.{List, ℕ, ◌-◌};
ghost use Rattle.limits.specs.Limits.{OBJECTS};
ghost use Rattle.words.specs.Integer.{integer};
ghost use Rattle.machine.specs.declared.Value.TheVariants.{Null as nil, Int as int};
ghost use Rattle.machine.specs.declared.Frame.{Frame};
ghost use Rattle.machine.specs.Config.{Stores, running, returning, code_of};
ghost use Rattle.machine.specs.Machine.{scope, find, moved, give, make};
ghost use Rattle.block.specs.declared.Area.TheVariants.{Objects};
ghost use Rattle.block.specs.Layout.{counted};
ghost use Rattle.environments.specs.Chains.{Chain};
ghost use Rattle.state.specs.Represents.{Rest, StateAt, SomeState};
ghost use Rattle.moves.specs.Performs.{Performs, WordBound};

use crate::{Effect, gives};
use block::Area;
use initials::start_fields;
use limits::Limits;
use machine::{Store, Value};
use subtypes::Script;

// "null becomes a value"
pub fn become_null(block: &mut [u8; Limits::BLOCK], i: usize) -> Effect
    requires { SomeState block.old i }
    ensures { (x : Rest) (st : Stores) (a e : ℕ) (fs : List Frame) →
        StateAt block.old i x st (running a e fs) →
        Performs block.old i x (moved st (returning nil fs)) block.new result }
{
    gives(block, i, Value::Null)
}

// A constant "becomes a value silently as null does".
pub fn become_number(block: &mut [u8; Limits::BLOCK], i: usize, low: u16, high: u16) -> Effect
    requires { SomeState block.old i }
    ensures { (x : Rest) (st : Stores) (a e : ℕ) (fs : List Frame) →
        StateAt block.old i x st (running a e fs) →
        Performs block.old i x (moved st (returning (int (integer low high)) fs)) block.new result }
{
    let z = integers::integer_of(low, high);
    gives(block, i, Value::Int(z))
}

// "a variable gives its value"
pub fn give_value(block: &mut [u8; Limits::BLOCK], i: usize, env: u16, x: u16) -> Effect
    requires { SomeState block.old i × Chain block.old env × WordBound block.old env }
    ensures { (rest : Rest) (st : Stores) (a : ℕ) (fs : List Frame) →
        StateAt block.old i rest st (running a env fs) →
        Performs block.old i rest (give st fs (find (scope st.bindings env) x)) block.new result }
{
    let Some(v) = environments::variable(block, env, x) else {
        return Effect::Still;
    };
    gives(block, i, v)
}

// "new makes an open object with null fields", those of type Int with 0.
pub fn make_object(script: &Script, block: &mut [u8; Limits::BLOCK], i: usize, class: u16) -> Effect
    requires { SomeState block.old i }
    ensures { (x : Rest) (st : Stores) (a e : ℕ) (fs : List Frame) →
        StateAt block.old i x st (running a e fs) →
        Performs block.old i x (make (code_of script.now.bytes.now) st fs class (OBJECTS - counted block.old Objects))
        block.new result }
{
    let n = areas::count(block, Area::Objects);
    if Limits::OBJECTS <= n {
        return Effect::Full(Store::Objects);
    }
    areas::new_object(block, class);
    start_fields(script, block, n, class);
    gives(block, i, Value::Ref(n as u16))
}
