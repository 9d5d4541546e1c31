// Words that have no meaning: are they 0?
ghost use Rattle.std.specs.Prelude.{◌≡◌, ◌<◌, ◌≤◌, length};
ghost use Rattle.limits.specs.Limits.{BLOCK};
ghost use Rattle.script.specs.Asking.{Decides};
ghost use Rattle.block.specs.Layout.{WORDS, width, most, counted, word_in};
ghost use Rattle.representation.specs.InOrder.{Unused, Blank, words_of};

use block::{Area, begins_of, most_of, width_of};
use limits::Limits;

// Are the words of the block from `from` up to `to` 0?
pub fn zeros(block: &[u8; Limits::BLOCK], from: usize, to: usize) -> bool
    requires { to ≤ WORDS }
    ensures { Decides (Unused (words_of block.now) from to) result }
{
    if to <= from {
        return true;
    }
    let first = 2 * from;
    let end = 2 * to;
    slices::all_zero(&block[first..end])
}

// Are the words of record i of an area from `from` up to `to` 0?
pub fn unused(block: &[u8; Limits::BLOCK], a: Area, i: usize, from: usize, to: usize) -> bool
    requires { (i < most a) × (from ≤ width a) × (to ≤ width a) }
    ensures { Decides (Unused (word_in block.now a i) from to) result }
{
    let first = begins_of(a);
    let wide = width_of(a);
    let at = first + wide * i;
    zeros(block, at + from, at + to)
}

// Are the words of the records of an area that are not counted 0?
pub fn blank(block: &[u8; Limits::BLOCK], a: Area) -> bool
    requires { counted block.now a ≤ most a }
    ensures { Decides (Blank block.now a) result }
{
    let n = areas::count(block, a);
    let first = begins_of(a);
    let wide = width_of(a);
    let all = most_of(a);
    zeros(block, first + wide * n, first + wide * all)
}
