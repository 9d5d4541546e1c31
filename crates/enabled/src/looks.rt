// Which positions can move, and what Run sees when it looks.
ghost use Rattle.std.specs.Prelude.{◌≡◌, List, [], ℕ, ◌<◌};
ghost use Rattle.script.specs.declared.Section.TheVariants.{Nodes as nodes};
ghost use Rattle.script.specs.Section.{count_of};
ghost use Rattle.script.specs.Statements.{WithinLayout};
ghost use Rattle.machine.specs.declared.Frame.{Frame};
ghost use Rattle.machine.specs.Config as machine;
ghost use Rattle.machine.specs.Config.{running, join, code_of, Stores, Config};
ghost use Rattle.machine.specs.Machine.{scope, find, lock_target, phase, fold, Path, limits, able, can_move, size};
ghost use Rattle.machine.specs.Runs.{any_able, look as seen};
ghost use Rattle.representation.specs.Preorder.{frames_above};
ghost use Rattle.environments.specs.Chains.{Chain};
ghost use Rattle.state.specs.Represents.{Rest, StateAt, SomeState};
ghost use Rattle.moves.specs.Performs.{AtPosition};
ghost use Rattle.enabled.specs.Looks.{Standing, look_of};

use block::Area;
use limits::Limits;
use locking::Access;
use machine::Ending;
use script::Kind;
use sections::{kind_at, node_word};
use tree::{Cell, Fold, Phase};

// Can the thread at i move, whose node is a lock on variable x?
fn lock_open(block: &[u8; Limits::BLOCK], i: usize, env: u16, x: u16) -> bool
    requires { SomeState block.now i × Chain block.now env }
    ensures { (c : Config) (p : Path) (rest : Rest) (a₀ a k : ℕ) (fs : List Frame) →
        AtPosition block.now i c p (running a₀ env fs) rest →
        result ≡ able (lock_target c.stores (frames_above [] c.tree p) fs a env k (find (scope c.stores.bindings env) x)) }
{
    !matches!(locking::lock_access(block, i, env, x), Access::Stays)
}

// The bytes and that they are within layout, and no Script: that would ask callers for its runs as well, of which nothing here is read.
// Can the thread at i move, which is at node a? "A thread waits when its move due is a lock on a shut object that it does not hold; unless waiting, finished or
// failed, it can move."
fn node_can_move(s: &[u8], block: &[u8; Limits::BLOCK], i: usize, a: u16, env: u16) -> bool
    requires { WithinLayout s.now × SomeState block.now i × Chain block.now env × (a < count_of s.now nodes) }
    ensures { (x : Standing s.now block.now) (p : Path) (rest : Rest) (fs : List Frame) →
        AtPosition block.now i x.config p (running a env fs) rest →
        result ≡ can_move (code_of s.now) limits x.config i }
{
    match kind_at(s, a) {
        Kind::Lock => lock_open(block, i, env, node_word(s, a, 1)),
        _ => true,
    }
}

// Can the join at i move? "A join can when both sides are finished threads or one is a failed thread."
fn join_can_move(block: &[u8; Limits::BLOCK], i: usize) -> bool
    requires { SomeState block.now i }
    ensures { (rest : Rest) (st : Stores) (fs : List Frame) (a e : ℕ) (left right : machine.Tree) →
        StateAt block.now i rest st (join fs a e left right) →
        result ≡ able (fold st fs a e (phase left) (phase right)) }
{
    matches!(state::fold_at(block, i), Fold::GoesOn | Fold::Fails)
}

// "each tree position that can move"
pub fn can_move(s: &[u8], block: &[u8; Limits::BLOCK], n: usize) -> bool
    requires { WithinLayout s.now × Standing s.now block.now }
    ensures { (x : Standing s.now block.now) → result ≡ can_move (code_of s.now) limits x.config n }
{
    if areas::count(block, Area::Positions) <= n {
        return false;
    }
    let x = state::entry_at(block, n);
    match x.cell {
        Cell::Failed => false,
        Cell::Running(a, env) => node_can_move(s, block, n, a, env),
        Cell::Returning(_) => x.frames != 0,
        Cell::Join(_, _) => join_can_move(block, n),
    }
}

// Can a position move? Position n, which has moved last, is asked first: most often it can go on.
fn any_can_move(s: &[u8], block: &[u8; Limits::BLOCK], n: usize) -> bool
    requires { WithinLayout s.now × Standing s.now block.now }
    ensures { (x : Standing s.now block.now) →
        result ≡ any_able (code_of s.now) limits x.config (size x.config.tree) }
{
    if can_move(s, block, n) {
        return true;
    }
    let count = areas::count(block, Area::Positions);
    for i in 0..count {
        if can_move(s, block, i) {
            return true;
        }
    }
    false
}

// "1 the root is a finished thread, 2 the root is a failed thread, 3 neither and no position can move". The answer is the same for every n, the position that
// is asked first.
pub fn look(s: &[u8], block: &[u8; Limits::BLOCK], n: usize) -> Option<Ending>
    requires { WithinLayout s.now × Standing s.now block.now }
    ensures { (x : Standing s.now block.now) → result ≡ look_of (seen (code_of s.now) limits x.config) }
{
    match tree::phase_of(state::entry_at(block, 0)) {
        Phase::Finished => Some(Ending::Finished),
        Phase::Broken => Some(Ending::Failed),
        Phase::Busy if any_can_move(s, block, n) => None,
        Phase::Busy => Some(Ending::Deadlocked),
    }
}
