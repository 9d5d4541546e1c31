// What a choice comes to.
ghost use Rattle.std.specs.Prelude.{◌≡◌};
ghost use Rattle.machine.specs.declared.Want.{Want};
ghost use Rattle.machine.specs.Config.{code_of, Config};
ghost use Rattle.machine.specs.Machine.{limits, choice};
ghost use Rattle.machine.specs.WellFormed.{WfConfig};
ghost use Rattle.state.specs.Represents.{Represents};
ghost use Rattle.choices.specs.PerformsChoice.{PerformsChoice, FormedBlock};

use crate::nodes::{resume, run_node};
use block::Area;
use control::fold_join;
use limits::Limits;
use members::Code;
use moves::Effect;
use tree::Cell;

// "A choice is a byte naming a tree position": its move, if it is there and can move. The table of zeros is lent for the types of an environment.
pub fn choose(code: &Code, table: &mut [u16], block: &mut [u8; Limits::BLOCK], n: usize) -> Effect
    requires { FormedBlock code.now.script.bytes.now table.old block.old }
    ensures performs_choice { (c : Config) (w : Want) →
        Represents block.old c →
        WfConfig (code_of code.now.script.bytes.now) w c →
        PerformsChoice block.old (choice (code_of code.now.script.bytes.now) limits c n) block.new result }
    ensures table_unchanged { table.new ≡ table.old }
{
    if areas::count(block, Area::Positions) <= n {
        return Effect::Still;
    }
    match state::entry_at(block, n).cell {
        Cell::Failed => Effect::Still,
        Cell::Running(a, env) => run_node(&code.script, block, n, a, env),
        Cell::Returning(v) => resume(code, table, block, n, v),
        Cell::Join(_, _) => fold_join(block, n),
    }
}
