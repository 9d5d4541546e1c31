// What the positions of a block say: how many frames wait, where a part ends, and what the move of a join comes to.
ghost use Rattle.std.specs.Prelude.{◌≡◌, ◌+◌, ◌<◌, ◌≤◌, length, take};
ghost use Rattle.std.proofs.Math.Seq.{slice};
ghost use Rattle.limits.specs.Limits.{BLOCK, POSITIONS};
ghost use Rattle.block.specs.declared.Area.TheVariants.{Positions};
ghost use Rattle.block.specs.Layout.{counted};
ghost use Rattle.tree.specs.Entries.{beneath_cell, frame_sum};
ghost use Rattle.tree.specs.Parts.{Ends, FramesWithin};
ghost use Rattle.tree.specs.Phases.{FoldAt};
ghost use Rattle.state.specs.Represents.{SomeState};
ghost use Rattle.state.specs.Positions.{entry_at, entries_in, ThreadsOf};

use crate::entry_at;
use block::{Area, Layout};
use limits::Limits;
use tree::{Fold, fold_by, phase_of};

// How many trees stand beneath position i.
pub fn beneath_at(block: &[u8; Limits::BLOCK], i: usize) -> usize
    requires { i < POSITIONS }
    ensures { (result ≡ beneath_cell (entry_at block.now i).cell) × (result ≤ 2) }
{
    let kind = areas::word(block, Area::Positions, i, Layout::KIND);
    if kind == Layout::JOIN {
        return 2;
    }
    0
}

// Where the part at `i` ends: `need` trees are still to come.
pub fn part_end(block: &[u8; Limits::BLOCK], i: usize) -> usize
    requires { (counted block.now Positions ≤ POSITIONS) × (i < counted block.now Positions) }
    ensures { Ends (entries_in block.now) i result }
{
    let n = areas::count(block, Area::Positions);
    let mut need: usize = 1;
    for p in i..n {
        if need == 0 {
            return p;
        }
        need = need - 1 + beneath_at(block, p);
    }
    n
}

// What the move of the part at `i` as a join comes to.
pub fn fold_at(block: &[u8; Limits::BLOCK], i: usize) -> Fold
    requires { SomeState block.now i }
    ensures { FoldAt (entries_in block.now) i result }
{
    if beneath_at(block, i) == 0 {
        return Fold::Still;
    }
    let left = i + 1;
    let right = part_end(block, left);
    let x = entry_at(block, left);
    let y = entry_at(block, right);
    fold_by(phase_of(x), phase_of(y))
}

// How many frames wait at the positions from `from` up to `to`.
fn frames_from(block: &[u8; Limits::BLOCK], from: usize, to: usize) -> usize
    requires { (from ≤ to) × (to ≤ counted block.now Positions) × (counted block.now Positions ≤ POSITIONS) }
    ensures { result ≡ frame_sum (slice from to (entries_in block.now)) }
{
    let mut sum: usize = 0;
    for i in from..to {
        let n = areas::word(block, Area::Positions, i, Layout::WAITING);
        sum += n as usize;
    }
    sum
}

// How many frames wait at the positions before `i`.
pub fn frames_before(block: &[u8; Limits::BLOCK], i: usize) -> usize
    requires { (i ≤ counted block.now Positions) × (counted block.now Positions ≤ POSITIONS) }
    ensures { result ≡ frame_sum (take i (entries_in block.now)) }
{
    frames_from(block, 0, i)
}

// How many frames wait in the part at `i`, which ends before `end`.
pub fn frames_within(block: &[u8; Limits::BLOCK], i: usize, end: usize) -> usize
    requires { (counted block.now Positions ≤ POSITIONS) × Ends (entries_in block.now) i end }
    ensures { FramesWithin (entries_in block.now) i result }
{
    frames_from(block, i, end)
}

// How many threads the block has: one more than joins, and there are two positions more for each join.
pub fn thread_count(block: &[u8; Limits::BLOCK]) -> usize
    ensures { ThreadsOf block.now result }
{
    areas::count(block, Area::Positions) / 2 + 1
}
