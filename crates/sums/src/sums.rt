// What variables hold, added.
ghost use Rattle.std.specs.Prelude.{◌≡◌, List, ℕ};
ghost use Rattle.machine.specs.declared.Frame.{Frame};
ghost use Rattle.machine.specs.Config.{Stores, running};
ghost use Rattle.machine.specs.Machine.{scope, find, add_bound};
ghost use Rattle.environments.specs.Chains.{bindings_in, Chain};
ghost use Rattle.state.specs.Represents.{Rest, StateAt, SomeState};
ghost use Rattle.moves.specs.Performs.{Performs};
ghost use Rattle.sums.specs.Addends.{addend_of};

use limits::Limits;
use machine::Value;
use moves::{Effect, fails, gives};

// What variable x holds, to be added.
fn addend_of(block: &[u8; Limits::BLOCK], env: u16, x: u16) -> Option<i32>
    requires { Chain block.now env }
    ensures { result ≡ addend_of (find (scope (bindings_in block.now) env) x) }
{
    match environments::variable(block, env, x)? {
        Value::Int(z) => Some(z),
        _ => None,
    }
}

// "kind 11 adds variables a and b .. in one step"; "A sum outside the range fails the thread as null does."
pub fn add_variables(block: &mut [u8; Limits::BLOCK], i: usize, env: u16, x: u16, y: u16) -> Effect
    requires { SomeState block.old i × Chain block.old env }
    ensures { (rest : Rest) (st : Stores) (a : ℕ) (fs : List Frame) →
        StateAt block.old i rest st (running a env fs) →
        Performs block.old i rest
        (add_bound st fs (find (scope st.bindings env) x) (find (scope st.bindings env) y))
        block.new result }
{
    let Some(p) = addend_of(block, env, x) else {
        return Effect::Still;
    };
    let Some(q) = addend_of(block, env, y) else {
        return Effect::Still;
    };
    let Some(z) = integers::sum_of(p, q) else {
        return fails(block, i);
    };
    gives(block, i, Value::Int(z))
}
