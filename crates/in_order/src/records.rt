// The records of a block: is each in order by itself?
ghost use Rattle.std.specs.Prelude.{◌≡◌, ◌<◌, ◌≤◌, length};
ghost use Rattle.limits.specs.Limits.{BLOCK, CLASS_FIELDS, OBJECTS, POSITIONS, FRAMES};
ghost use Rattle.script.specs.Asking.{Decides};
ghost use Rattle.script.specs.Statements.{WithinLayout};
ghost use Rattle.machine.specs.Machine.{field_count};
ghost use Rattle.block.specs.declared.Area.TheVariants.{Objects, Positions, Frames};
ghost use Rattle.block.specs.Layout.{most, counted, word_in};
ghost use Rattle.representation.specs.InOrder.{ObjectOk, PositionOk, FrameOk, RecordOk, RecordsOk};

use crate::blanks::unused;
use crate::values::{fields_in_order, value_in_order};
use areas::{count, word};
use block::{Area, Layout};
use limits::Limits;
use script::Section;
use sections::own_count;
use subtypes::{Declared, declared_as};

// The bytes and that they are within layout, and no Script: that would ask callers for its runs as well, of which nothing here is read.
// How many fields a class type has. Question 8 was answered: at most 8.
fn field_count(s: &[u8], t: u16) -> usize
    requires { WithinLayout s.now }
    ensures { (result ≡ field_count s.now t) × (result ≤ CLASS_FIELDS) }
{
    let Declared::Class(c) = declared_as(s, t) else {
        return 0;
    };
    own_count(s, Section::Fields, c)
}

// Is object i open or shut, with a value for each field of its class and 0 for each field that its class does not have?
fn object_in_order(s: &[u8], block: &[u8; Limits::BLOCK], i: usize) -> bool
    requires { WithinLayout s.now × (i < OBJECTS) }
    ensures { Decides (ObjectOk (field_count s.now) (word_in block.now Objects i)) result }
{
    let shut = word(block, Area::Objects, i, Layout::SHUT);
    if 1 < shut {
        return false;
    }
    let class = word(block, Area::Objects, i, Layout::CLASS);
    let n = field_count(s, class);
    if !fields_in_order(block, i, n) {
        return false;
    }
    let used = Layout::FIRST_FIELD + Layout::VALUE * n;
    unused(block, Area::Objects, i, used, Layout::OBJECT_WIDTH)
}

// Is position i of a known kind, with a value where it has one and 0 for each word without a meaning for that kind?
fn position_in_order(block: &[u8; Limits::BLOCK], i: usize) -> bool
    requires { i < POSITIONS }
    ensures { Decides (PositionOk (word_in block.now Positions i)) result }
{
    match word(block, Area::Positions, i, Layout::KIND) {
        Layout::RUNNING | Layout::JOIN => {
            unused(block, Area::Positions, i, Layout::RESULT, Layout::WAITING)
        }
        Layout::RETURNING => {
            value_in_order(block, Area::Positions, i, Layout::RESULT)
                && unused(block, Area::Positions, i, Layout::NODE, Layout::RESULT)
        }
        Layout::FAILED => unused(
            block,
            Area::Positions,
            i,
            Layout::NODE,
            Layout::POSITION_WIDTH,
        ),
        _ => false,
    }
}

// Is frame i of a known kind, with 0 for the last word where it has no meaning?
fn frame_in_order(block: &[u8; Limits::BLOCK], i: usize) -> bool
    requires { i < FRAMES }
    ensures { Decides (FrameOk (word_in block.now Frames i)) result }
{
    match word(block, Area::Frames, i, Layout::KIND) {
        Layout::AWAITS => true,
        Layout::CASTS | Layout::LOCKS => {
            unused(block, Area::Frames, i, Layout::ENV, Layout::FRAME_WIDTH)
        }
        _ => false,
    }
}

// Is record i of an area in order?
fn record_in_order(s: &[u8], block: &[u8; Limits::BLOCK], a: Area, i: usize) -> bool
    requires { WithinLayout s.now × (i < most a) }
    ensures { Decides (RecordOk (field_count s.now) a (word_in block.now a i)) result }
{
    match a {
        Area::Objects => object_in_order(s, block, i),
        Area::Bindings => value_in_order(block, Area::Bindings, i, Layout::BOUND),
        Area::Positions => position_in_order(block, i),
        Area::Frames => frame_in_order(block, i),
    }
}

// Is each record of an area in order?
pub fn records_in_order(s: &[u8], block: &[u8; Limits::BLOCK], a: Area) -> bool
    requires { WithinLayout s.now × (counted block.now a ≤ most a) }
    ensures { Decides (RecordsOk (field_count s.now) block.now a (counted block.now a)) result }
{
    let n = count(block, a);
    for i in 0..n {
        if !record_in_order(s, block, a, i) {
            return false;
        }
    }
    true
}
