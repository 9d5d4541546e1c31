// Moves that leave a frame, and those of forks and joins.
ghost use Rattle.std.specs.Prelude.{List, ℕ, ◌-◌};
ghost use Rattle.limits.specs.Limits.{FRAMES, THREADS};
ghost use Rattle.machine.specs.declared.Frame.{Frame};
ghost use Rattle.machine.specs.Config as machine;
ghost use Rattle.machine.specs.Config.{Stores, running, join, Config};
ghost use Rattle.machine.specs.Machine.{thread_count, descend, spawn, phase, fold};
ghost use Rattle.block.specs.declared.Area.TheVariants.{Frames};
ghost use Rattle.block.specs.Layout.{counted};
ghost use Rattle.state.specs.Represents.{Represents, Rest, StateAt, SomeState};
ghost use Rattle.moves.specs.Performs.{Performs};

use block::Area;
use limits::Limits;
use machine::{Frame, Store};
use moves::{Effect, fails};
use tree::Fold;

// "kinds 3, 4, 5 and 7 descend into their first-run part and leave a frame"
pub fn leave_frame(block: &mut [u8; Limits::BLOCK], i: usize, f: Frame, a: u16, env: u16) -> Effect
    requires { SomeState block.old i }
    ensures { (x : Rest) (st : Stores) (a₀ : ℕ) (fs : List Frame) →
        StateAt block.old i x st (running a₀ env fs) →
        Performs block.old i x (descend st fs env f a (FRAMES - counted block.old Frames)) block.new result }
{
    if Limits::FRAMES <= areas::count(block, Area::Frames) {
        return Effect::Full(Store::Frames);
    }
    state::push(block, i, f, a, env);
    Effect::Moved
}

// "A fork becomes a join that keeps its frames, its last part and the bindings for it, which both asyncs also start with"
pub fn become_join(
    block: &mut [u8; Limits::BLOCK],
    i: usize,
    env: u16,
    a: u16,
    b: u16,
    c: u16,
) -> Effect
    requires { SomeState block.old i }
    ensures { (d : Config) (x : Rest) (st : Stores) (a₀ : ℕ) (fs : List Frame) →
        Represents block.old d →
        StateAt block.old i x st (running a₀ env fs) →
        Performs block.old i x (spawn st fs env a b c (THREADS - thread_count d.tree)) block.new result }
{
    if Limits::THREADS <= state::thread_count(block) {
        return Effect::Full(Store::Threads);
    }
    state::fork(block, i, a, b, c, env);
    Effect::Moved
}

// "A join with both sides finished goes on as the left thread, at the last part and with the frames kept; with a failed side it becomes failed and all beneath
// is dropped."
pub fn fold_join(block: &mut [u8; Limits::BLOCK], i: usize) -> Effect
    requires { SomeState block.old i }
    ensures { (x : Rest) (st : Stores) (fs : List Frame) (a e : ℕ) (left right : machine.Tree) →
        StateAt block.old i x st (join fs a e left right) →
        Performs block.old i x (fold st fs a e (phase left) (phase right)) block.new result }
{
    match state::fold_at(block, i) {
        Fold::Still => Effect::Still,
        Fold::GoesOn => {
            state::rejoin(block, i);
            Effect::Moved
        }
        Fold::Fails => fails(block, i),
    }
}
