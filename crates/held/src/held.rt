// Which objects a thread holds.
ghost use Rattle.std.specs.Prelude.{◌≡◌, ◌≤◌, length};
ghost use Rattle.limits.specs.Limits.{BLOCK, POSITIONS, FRAMES};
ghost use Rattle.block.specs.declared.Area.TheVariants.{Positions};
ghost use Rattle.block.specs.Layout.{counted};
ghost use Rattle.tree.specs.Parts.{Leftmost};
ghost use Rattle.state.specs.Represents.{SomeState};
ghost use Rattle.state.specs.Positions.{entries_in};
ghost use Rattle.held.specs.Holding.{is_lock, LockWithin, Held};

use limits::Limits;
use machine::Frame;
use state::{beneath_at, frames_before};

// Is f a lock frame of object o?
fn locks(f: Frame, o: u16) -> bool
    ensures { result ≡ is_lock o f }
{
    matches!(f, Frame::Locks(p) if o == p)
}

// Is one of the frames from `from` up to `to` a lock frame of object o?
fn lock_within(block: &[u8; Limits::BLOCK], from: usize, to: usize, o: u16) -> bool
    requires { to ≤ FRAMES }
    ensures { LockWithin block.now from to o result }
{
    for i in from..to {
        let f = areas::frame(block, i);
        if locks(f, o) {
            return true;
        }
    }
    false
}

// Where the joins begin of which the thread at `i` is the leftmost thread.
fn leftmost_from(block: &[u8; Limits::BLOCK], i: usize) -> usize
    requires { (i ≤ counted block.now Positions) × (counted block.now Positions ≤ POSITIONS) }
    ensures { Leftmost (entries_in block.now) i result }
{
    for k in (0..i).rev() {
        if beneath_at(block, k) == 0 {
            return k + 1;
        }
    }
    0
}

// Does the thread at position i hold object o? The frames that it will resume stand together: those of the joins of which it is the leftmost thread, and its
// own.
pub fn holds(block: &[u8; Limits::BLOCK], i: usize, o: u16) -> bool
    requires { SomeState block.now i }
    ensures { Held block.now i o result }
{
    let first = leftmost_from(block, i);
    let from = frames_before(block, first);
    let to = frames_before(block, i + 1);
    lock_within(block, from, to, o)
}
