// The locks of a block: which objects its lock frames name.
ghost use Rattle.std.specs.Prelude.{◌≡◌, ℕ, ◌+◌, ◌<◌, leb, length, get_or};
ghost use Rattle.limits.specs.Limits.{OBJECTS};
ghost use Rattle.script.specs.Lists.{run};
ghost use Rattle.script.specs.Questions.{all_of};
ghost use Rattle.machine.specs.Decide.{numbers_below};
ghost use Rattle.block.specs.declared.Area.TheVariants.{Objects, Positions, Frames};
ghost use Rattle.block.specs.Layout.{counted};
ghost use Rattle.block.specs.Decode.{config_in};
ghost use Rattle.representation.specs.InOrder.{InOrder};
ghost use Rattle.locks.specs.Locking.{Sized, shut_in, Marks, Marking, kind_at, goes_on, locks_test};

use block::{Area, Layout};
use limits::Limits;

// Marks the object of frame i, if that is a lock frame. The object must be there and shut, and have no mark: "all lock frames name distinct objects, each of
// them shut".
fn mark_frame(block: &[u8; Limits::BLOCK], i: usize, marks: &mut [u16]) -> bool
    requires { Sized block.now × (i < counted block.now Frames) × Marks block.now i marks.old }
    ensures { Marking block.now (i + 1) marks.new result }
{
    let kind = areas::word(block, Area::Frames, i, Layout::KIND);
    if kind != Layout::LOCKS {
        return true;
    }
    let o = areas::word(block, Area::Frames, i, Layout::OBJECT) as usize;
    if areas::count(block, Area::Objects) <= o {
        return false;
    }
    let shut = areas::word(block, Area::Objects, o, Layout::SHUT);
    let mark = marks[o];
    // A shut object has the word 1 and may be marked once; an open one has 0.
    if shut <= mark {
        return false;
    }
    marks[o] = mark + 1;
    true
}

// Marks the objects of all lock frames.
fn mark_frames(block: &[u8; Limits::BLOCK], marks: &mut [u16]) -> bool
    requires { Sized block.now × Marks block.now 0 marks.old }
    ensures { Marking block.now (counted block.now Frames) marks.new result }
{
    let count = areas::count(block, Area::Frames);
    for i in 0..count {
        if !mark_frame(block, i, marks) {
            return false;
        }
    }
    true
}

// Is no thread failed?
fn none_failed(block: &[u8; Limits::BLOCK]) -> bool
    requires { Sized block.now }
    ensures { result ≡ all_of goes_on (run (kind_at block.now) 0 (counted block.now Positions)) }
{
    let count = areas::count(block, Area::Positions);
    for i in 0..count {
        if areas::word(block, Area::Positions, i, Layout::KIND) == Layout::FAILED {
            return false;
        }
    }
    true
}

// Has every shut object a mark?
fn shut_are_marked(block: &[u8; Limits::BLOCK], marks: &[u16]) -> bool
    requires { Sized block.now × (length marks.now ≡ OBJECTS) }
    ensures { result ≡ all_of (λ o. leb (shut_in block.now o) (get_or marks.now o 0)) (numbers_below (counted block.now Objects)) }
{
    let count = areas::count(block, Area::Objects);
    for o in (0..count).rev() {
        if marks[o] < areas::word(block, Area::Objects, o, Layout::SHUT) {
            return false;
        }
    }
    true
}

// Do the locks fit? "all lock frames name distinct objects, each of them shut", and "With no failed thread no other objects are shut."
pub fn locks_fit(block: &[u8; Limits::BLOCK]) -> bool
    requires { Sized block.now }
    ensures { (field_count : ℕ → ℕ) → InOrder field_count block.now → result ≡ locks_test (config_in field_count block.now) }
{
    let mut marks: [u16; Limits::OBJECTS] = [0; Limits::OBJECTS];
    if !mark_frames(block, &mut marks) {
        return false;
    }
    if !none_failed(block) {
        return true;
    }
    shut_are_marked(block, &marks)
}
