// Offer's flags.
ghost use Rattle.std.specs.Prelude.{◌≡◌, length};
ghost use Rattle.limits.specs.Limits.{FLAGS};
ghost use Rattle.script.specs.Statements.{WithinLayout};
ghost use Rattle.calls.specs.Calls.{flags_of};
ghost use Rattle.enabled.specs.Looks.{Standing};

use crate::can_move;
use limits::Limits;

// The bytes and that they are within layout, and no Script: that would ask callers for its runs as well, of which nothing here is read.
// "a byte to 1 for each tree position that can move and 0 for all others"
pub fn mark(s: &[u8], block: &[u8; Limits::BLOCK], flags: &mut [u8])
    requires { WithinLayout s.now × Standing s.now block.now × (length flags.old ≡ FLAGS) }
    ensures { (x : Standing s.now block.now) → flags.new ≡ flags_of s.now x.config }
{
    for (n, flag) in flags.iter_mut().enumerate() {
        *flag = u8::from(can_move(s, block, n));
    }
}
