// Moves of a waiting let: the type of its first part, and the binding.
ghost use Rattle.std.specs.Prelude.{◌≡◌, List, ◌∷◌, ◌-◌, ◌<◌};
ghost use Rattle.limits.specs.Limits.{BINDINGS};
ghost use Rattle.script.specs.declared.Section.TheVariants.{Nodes as nodes};
ghost use Rattle.script.specs.Section.{count_of};
ghost use Rattle.script.specs.Reading.{program_of, expr_at};
ghost use Rattle.typing.specs.Typing.{inferred};
ghost use Rattle.machine.specs.declared.Frame.{Frame};
ghost use Rattle.machine.specs.Config.{Stores, returning};
ghost use Rattle.machine.specs.Machine.{context, extend};
ghost use Rattle.block.specs.declared.Area.TheVariants.{Bindings};
ghost use Rattle.block.specs.Layout.{counted};
ghost use Rattle.environments.specs.Known.{Inferable};
ghost use Rattle.state.specs.Represents.{Rest, StateAt};
ghost use Rattle.moves.specs.Performs.{Performs};
ghost use Rattle.moves.specs.AtFrame.{AtTypedFrame};

use crate::WaitingLet;
use block::Area;
use limits::Limits;
use machine::Store;
use members::Code;
use moves::Effect;
use tree::Cell;

// "a waiting let adds one binding, its type the one inferred for the let's first part under the frame's bindings"
pub fn bind_value(
    code: &Code,
    table: &mut [u16],
    block: &mut [u8; Limits::BLOCK],
    i: usize,
    w: WaitingLet,
) -> Effect
    requires at_typed_frame { AtTypedFrame code.now.script.bytes.now table.old block.old i w.env w.value }
    requires first_bound { (w.first < count_of code.now.script.bytes.now nodes) × Inferable code.now.script.bytes.now block.old w.env w.first }
    ensures performs { (rest : Rest) (st : Stores) (fs : List Frame) (g : Frame) →
        StateAt block.old i rest st (returning w.value (g ∷ fs)) →
        Performs block.old i rest
        (extend st fs w.name w.value w.body w.env
        (inferred (program_of code.now.script.bytes.now) (context st.bindings w.env) (expr_at code.now.script.bytes.now w.first))
        (BINDINGS - counted block.old Bindings))
        block.new result }
    ensures table_unchanged { table.new ≡ table.old }
{
    let Ok(t) = environments::first_type(code, table, block, w.env, w.first) else {
        return Effect::Still;
    };
    let n = areas::count(block, Area::Bindings);
    if Limits::BINDINGS <= n {
        return Effect::Full(Store::Bindings);
    }
    areas::add_binding(block, w.name, t, w.value, w.env);
    state::pop(block, i, Cell::Running(w.body, (n + 1) as u16));
    Effect::Moved
}
