// The positions of a block together: one tree, and as many frames as are counted.
ghost use Rattle.std.specs.Prelude.{◌≡◌, suc, ◌<◌, ◌≤◌, length};
ghost use Rattle.words.specs.Word.{WORD};
ghost use Rattle.limits.specs.Limits.{BLOCK, POSITIONS};
ghost use Rattle.script.specs.Asking.{Decides};
ghost use Rattle.block.specs.declared.Area.TheVariants.{Positions};
ghost use Rattle.block.specs.Layout.{counted};
ghost use Rattle.representation.specs.InOrder.{OneTree, FramesAdd};
ghost use Rattle.one_tree.specs.After.{After};

use areas::{count, word};
use block::{Area, Layout};
use limits::Limits;

// How many trees are still to come after a position of this kind: a thread is one of them, and a join makes two of one.
fn after(kind: u16, trees: usize) -> usize
    requires { (0 < trees) × (trees < WORD) }
    ensures { After kind trees result × (result ≤ suc trees) }
{
    if kind == Layout::JOIN {
        return trees + 1;
    }
    trees - 1
}

// Do the positions form one tree?
pub fn one_tree(block: &[u8; Limits::BLOCK]) -> bool
    requires { counted block.now Positions ≤ POSITIONS }
    ensures { Decides (OneTree block.now) result }
{
    let n = count(block, Area::Positions);
    let mut trees: usize = 1;
    for i in 0..n {
        if trees == 0 {
            return false;
        }
        let kind = word(block, Area::Positions, i, Layout::KIND);
        trees = after(kind, trees);
    }
    trees == 0
}

// `frames_before` of state adds the same words, as those of a tree's entries; this is asked of words alone, before it is known that there is a tree.
// Do the positions' numbers of frames add up to the count of frames?
pub fn frames_add_up(block: &[u8; Limits::BLOCK]) -> bool
    requires { counted block.now Positions ≤ POSITIONS }
    ensures { Decides (FramesAdd block.now) result }
{
    let n = count(block, Area::Positions);
    let mut sum: usize = 0;
    for i in 0..n {
        sum += word(block, Area::Positions, i, Layout::WAITING) as usize;
    }
    sum == count(block, Area::Frames)
}
