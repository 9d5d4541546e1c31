// The move of a lock.
ghost use Rattle.std.specs.Prelude.{◌≡◌, List, [], ℕ, ◌-◌, ◌<◌};
ghost use Rattle.limits.specs.Limits.{FRAMES};
ghost use Rattle.machine.specs.declared.Frame.{Frame};
ghost use Rattle.machine.specs.Config.{Stores, running, Config};
ghost use Rattle.machine.specs.Machine.{scope, find, shut_and_enter, lock_target, Path};
ghost use Rattle.block.specs.declared.Area.TheVariants.{Objects, Frames};
ghost use Rattle.block.specs.Layout.{counted};
ghost use Rattle.representation.specs.Preorder.{frames_above};
ghost use Rattle.environments.specs.Chains.{Chain};
ghost use Rattle.state.specs.Represents.{Rest, StateAt, SomeState};
ghost use Rattle.locking.specs.declared.Access.TheVariants.{Open};
ghost use Rattle.moves.specs.Performs.{Performs, AtPosition};
ghost use Rattle.locking.specs.Entered.{entered};

use crate::Access;
use block::{Area, Layout};
use limits::Limits;
use machine::{Frame, Store, Value};
use moves::{Effect, fails, target_of};
use tree::Cell;

// "open shuts and leaves a lock frame"
fn shut_object(block: &mut [u8; Limits::BLOCK], i: usize, env: u16, a: u16, o: u16) -> Effect
    requires { SomeState block.old i × (o < counted block.old Objects) }
    ensures { (x : Rest) (st : Stores) (a₀ : ℕ) (fs : List Frame) →
        StateAt block.old i x st (running a₀ env fs) →
        Performs block.old i x (shut_and_enter st fs a env o (FRAMES - counted block.old Frames)) block.new result }
{
    if Limits::FRAMES <= areas::count(block, Area::Frames) {
        return Effect::Full(Store::Frames);
    }
    areas::set_shut(block, o as usize, true);
    state::push(block, i, Frame::Locks(o), a, env);
    Effect::Moved
}

// What the thread at i finds at a lock on variable x: may it enter? The move and the look ask the same.
pub fn lock_access(block: &[u8; Limits::BLOCK], i: usize, env: u16, x: u16) -> Access
    requires { SomeState block.now i × Chain block.now env }
    ensures x_value { (c : Config) (p : Path) (rest : Rest) (a₀ a k : ℕ) (fs : List Frame) →
        AtPosition block.now i c p (running a₀ env fs) rest →
        lock_target c.stores (frames_above [] c.tree p) fs a env k (find (scope c.stores.bindings env) x) ≡ entered c.stores fs a env k result }
    ensures by_index { (o : ℕ) → result ≡ Open o → o < counted block.now Objects }
{
    let Some(value) = target_of(block, env, x) else {
        return Access::Stays;
    };
    let Value::Ref(o) = value else {
        return Access::Null;
    };
    if areas::word(block, Area::Objects, o as usize, Layout::SHUT) == 0 {
        return Access::Open(o);
    }
    if held::holds(block, i, o) {
        return Access::Held;
    }
    Access::Stays
}

// "Lock: null fails; open shuts and leaves a lock frame; held by this thread enters with no frame; shut and not held by this thread cannot move."
pub fn enter_lock(block: &mut [u8; Limits::BLOCK], i: usize, env: u16, x: u16, a: u16) -> Effect
    requires { SomeState block.old i × Chain block.old env }
    ensures { (c : Config) (p : Path) (rest : Rest) (a₀ : ℕ) (fs : List Frame) →
        AtPosition block.old i c p (running a₀ env fs) rest →
        Performs block.old i rest
        (lock_target c.stores (frames_above [] c.tree p) fs a env (FRAMES - counted block.old Frames) (find (scope c.stores.bindings env) x))
        block.new result }
{
    match lock_access(block, i, env, x) {
        Access::Stays => Effect::Still,
        Access::Null => fails(block, i),
        Access::Open(o) => shut_object(block, i, env, a, o),
        Access::Held => {
            state::set_cell(block, i, Cell::Running(a, env));
            Effect::Moved
        }
    }
}
