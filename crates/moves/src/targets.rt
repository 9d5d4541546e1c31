// The look-up of a target.
ghost use Rattle.std.specs.Prelude.{ℕ};
ghost use Rattle.machine.specs.Config as machine;
ghost use Rattle.machine.specs.Config.{Stores};
ghost use Rattle.machine.specs.Machine.{scope, find};
ghost use Rattle.environments.specs.Chains.{Chain};
ghost use Rattle.state.specs.Represents.{Rest, StateAt};
ghost use Rattle.moves.specs.Targets.{TargetIs};

use block::Area;
use limits::Limits;
use machine::Value;

// What a target variable holds: null or an object that is there; nothing, where the variable is not bound, its object is not there, or it holds a number.
pub fn target_of(block: &[u8; Limits::BLOCK], env: u16, x: u16) -> Option<Value>
    requires { Chain block.now env }
    ensures { (i : ℕ) (rest : Rest) (st : Stores) (u : machine.Tree) →
        StateAt block.now i rest st u →
        TargetIs st.objects (find (scope st.bindings env) x) result }
{
    let value = environments::variable(block, env, x)?;
    match value {
        Value::Null => Some(value),
        Value::Ref(o) if areas::count(block, Area::Objects) <= o as usize => None,
        Value::Ref(_) => Some(value),
        Value::Int(_) => None,
    }
}
