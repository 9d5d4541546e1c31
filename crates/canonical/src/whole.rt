// The bytes of a block as a whole.
ghost use Rattle.std.specs.Prelude.{◌≡◌, length};
ghost use Rattle.limits.specs.Limits.{BLOCK};
ghost use Rattle.script.specs.Asking.{Decides};
ghost use Rattle.script.specs.Statements.{WithinLayout};
ghost use Rattle.machine.specs.Machine.{field_count};
ghost use Rattle.representation.specs.InOrder.{AreaOk};
ghost use Rattle.parts.specs.Parts.{ThreadsOk};

use block::{Area, Layout, most_of};
use in_order::{blank, records_in_order, zeros};
use limits::Limits;
use one_tree::{frames_add_up, one_tree};

// The bytes and that they are within layout, and no Script: that would ask callers for its runs as well, of which nothing here is read.
// Has an area at most as many records as places, each in order, and 0 in the other places?
pub fn area_in_order(s: &[u8], block: &[u8; Limits::BLOCK], a: Area) -> bool
    requires { WithinLayout s.now }
    ensures { Decides (AreaOk (field_count s.now) block.now a) result }
{
    let n = areas::count(block, a);
    let all = most_of(a);
    n <= all && records_in_order(s, block, a) && blank(block, a)
}

// Are positions and frames in order, form the positions one tree with as many frames as are counted, and is all after the areas 0?
pub fn threads_in_order(s: &[u8], block: &[u8; Limits::BLOCK]) -> bool
    requires { WithinLayout s.now }
    ensures { Decides (ThreadsOk (field_count s.now) block.now) result }
{
    area_in_order(s, block, Area::Positions)
        && area_in_order(s, block, Area::Frames)
        && one_tree(block)
        && frames_add_up(block)
        && zeros(block, Layout::END, Layout::WORDS)
}
