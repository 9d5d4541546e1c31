// The exits of a move that change the thread: it has a value, or has failed.
ghost use Rattle.std.specs.Prelude.{List, ℕ};
ghost use Rattle.machine.specs.declared.Frame.{Frame};
ghost use Rattle.machine.specs.Config as machine;
ghost use Rattle.machine.specs.Config.{Stores, running, returning, failed};
ghost use Rattle.machine.specs.Machine.{moved};
ghost use Rattle.block.specs.Values.{Storable};
ghost use Rattle.state.specs.Represents.{Rest, StateAt, SomeState};
ghost use Rattle.moves.specs.Performs.{Performs};

use crate::Effect;
use limits::Limits;
use machine::Value;
use tree::Cell;

// The thread at i, which was at a node, has the value v.
pub fn gives(block: &mut [u8; Limits::BLOCK], i: usize, v: Value) -> Effect
    requires { SomeState block.old i × Storable v }
    ensures { (b : List ℕ) (x : Rest) (st : Stores) (a e : ℕ) (fs : List Frame) →
        StateAt block.old i x st (running a e fs) →
        Performs b i x (moved st (returning v fs)) block.new result }
{
    state::set_cell(block, i, Cell::Returning(v));
    Effect::Moved
}

// The part at i becomes failed: "null fails the thread", so does a sum outside the range, and a join does so with a failed side.
pub fn fails(block: &mut [u8; Limits::BLOCK], i: usize) -> Effect
    requires { SomeState block.old i }
    ensures { (x : Rest) (st : Stores) (u : machine.Tree) →
        StateAt block.old i x st u →
        Performs block.old i x (moved st failed) block.new result }
{
    state::fail(block, i);
    Effect::Moved
}
