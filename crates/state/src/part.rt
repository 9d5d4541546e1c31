// The moves of one position: its record alone, its record and the frames, or, where a part is exchanged, the tree.
ghost use Rattle.std.specs.Prelude.{◌≡◌, List, [], ◌∷◌, ℕ, ◌+◌, ◌≤◌, ◌<◌};
ghost use Rattle.limits.specs.Limits.{POSITIONS, FRAMES};
ghost use Rattle.machine.specs.Config as machine;
ghost use Rattle.machine.specs.Config.{Stores, running, returning, failed, join};
ghost use Rattle.machine.specs.Machine.{size};
ghost use Rattle.machine.specs.declared.Value.{Value};
ghost use Rattle.machine.specs.declared.Frame.{Frame};
ghost use Rattle.block.specs.declared.Area.TheVariants.{Positions, Frames};
ghost use Rattle.block.specs.Layout.{counted};
ghost use Rattle.block.specs.Values.{Storable};
ghost use Rattle.block.specs.Block.{waiting, frames_of};
ghost use Rattle.tree.specs.Entries.{cell_of, result_of};
ghost use Rattle.state.specs.Represents.{Rest, StateAt, SomeState};
ghost use Rattle.state.specs.Positions.{entry_at};

use crate::frames_before;
use crate::reading::{frames_within, part_end};
use crate::whole::{put_entry, put_tree, take_tree};
use block::{Area, Layout};
use limits::Limits;
use machine::Frame;
use tree::{Cell, Entry};

// How many frames wait at position `i`.
fn frames_at(block: &[u8; Limits::BLOCK], i: usize) -> u16
    requires { SomeState block.now i }
    ensures { result ≡ (entry_at block.now i).frames }
{
    areas::word(block, Area::Positions, i, Layout::WAITING)
}

// The thread at `i` becomes another with the same frames.
pub fn set_cell(block: &mut [u8; Limits::BLOCK], i: usize, cell: Cell)
    requires { SomeState block.old i × Storable (result_of cell) }
    ensures { (x : Rest) (st : Stores) (u w : machine.Tree) →
        size u ≡ 1 →
        size w ≡ 1 →
        cell_of w ≡ cell →
        waiting w ≡ waiting u →
        StateAt block.old i x st u →
        StateAt block.new i x st w }
{
    let frames = frames_at(block, i);
    put_entry(block, i, Entry { cell, frames });
}

// The thread at `i` goes on at node a in environment e, with the frame f more.
pub fn push(block: &mut [u8; Limits::BLOCK], i: usize, f: Frame, a: u16, e: u16)
    requires { SomeState block.old i × (counted block.old Frames < FRAMES) }
    ensures { (x : Rest) (st : Stores) (a₀ e₀ : ℕ) (fs : List Frame) →
        StateAt block.old i x st (running a₀ e₀ fs) →
        StateAt block.new i x st (running a e (f ∷ fs)) }
{
    let frames = frames_at(block, i);
    let at = frames_before(block, i) + frames as usize;
    areas::insert_frame(block, at, f);
    put_entry(
        block,
        i,
        Entry {
            cell: Cell::Running(a, e),
            frames: frames + 1,
        },
    );
}

// The thread at `i` becomes another, without its innermost frame.
pub fn pop(block: &mut [u8; Limits::BLOCK], i: usize, cell: Cell)
    requires { SomeState block.old i × (0 < (entry_at block.old i).frames) × Storable (result_of cell) }
    ensures { (x : Rest) (st : Stores) (v : Value) (f : Frame) (fs : List Frame) (w : machine.Tree) →
        size w ≡ 1 →
        cell_of w ≡ cell →
        waiting w ≡ fs →
        StateAt block.old i x st (returning v (f ∷ fs)) →
        StateAt block.new i x st w }
{
    let left = frames_at(block, i) - 1;
    let at = frames_before(block, i) + left as usize;
    areas::remove_frames(block, at, 1);
    put_entry(block, i, Entry { cell, frames: left });
}

// The part at `i` becomes failed: all beneath is dropped, and all its frames.
pub fn fail(block: &mut [u8; Limits::BLOCK], i: usize)
    requires { SomeState block.old i }
    ensures { (x : Rest) (st : Stores) (u : machine.Tree) → StateAt block.old i x st u → StateAt block.new i x st failed }
{
    let at = frames_before(block, i);
    let end = part_end(block, i);
    let k = frames_within(block, i, end);
    let tree = take_tree(block);
    areas::remove_frames(block, at, k);
    put_tree(block, tree.failed(i, end));
}

// The thread at `i` becomes a join of threads at the nodes a and b, which goes on at c and keeps the frames.
pub fn fork(block: &mut [u8; Limits::BLOCK], i: usize, a: u16, b: u16, c: u16, e: u16)
    requires { SomeState block.old i × (counted block.old Positions + 2 ≤ POSITIONS) }
    ensures { (x : Rest) (st : Stores) (a₀ e₀ : ℕ) (fs : List Frame) →
        StateAt block.old i x st (running a₀ e₀ fs) →
        StateAt block.new i x st (join fs c e (running a e []) (running b e [])) }
{
    let tree = take_tree(block);
    put_tree(block, tree.forked(i, a, b, c, e));
}

// The join at `i`, with no frame beneath it, goes on as a thread at its last part, with its frames.
pub fn rejoin(block: &mut [u8; Limits::BLOCK], i: usize)
    requires { SomeState block.old i }
    ensures { (x : Rest) (st : Stores) (fs : List Frame) (a e : ℕ) (left right : machine.Tree) →
        frames_of left ≡ [] →
        frames_of right ≡ [] →
        StateAt block.old i x st (join fs a e left right) →
        StateAt block.new i x st (running a e fs) }
{
    let end = part_end(block, i);
    let tree = take_tree(block);
    put_tree(block, tree.joined(i, end));
}

// The innermost frame at `i`.
pub fn top_frame(block: &[u8; Limits::BLOCK], i: usize) -> Frame
    requires { SomeState block.now i × (0 < (entry_at block.now i).frames) }
    ensures { (x : Rest) (st : Stores) (u : machine.Tree) (f : Frame) (fs : List Frame) → waiting u ≡ f ∷ fs → StateAt block.now i x st u → result ≡ f }
{
    let left = frames_at(block, i) - 1;
    areas::frame(block, frames_before(block, i) + left as usize)
}
