// Whether all positions of the thread tree are typed.
ghost use Rattle.std.specs.Prelude.{◌≡◌, ◌<◌};
ghost use Rattle.members.specs.Code.{Blank};
ghost use Rattle.machine.specs.declared.Want.TheVariants.{Upto as upto};
ghost use Rattle.machine.specs.Config.{code_of};
ghost use Rattle.machine.specs.Decide.{tree_test};
ghost use Rattle.block.specs.declared.Area.TheVariants.{Positions};
ghost use Rattle.block.specs.Layout.{counted};
ghost use Rattle.parts.specs.Parts.{config_read};
ghost use Rattle.frames.specs.Expecting.{frames_before, place_at, position_test};
ghost use Rattle.awaited.specs.Awaited.{ScopedBlock};
ghost use Rattle.memo.specs.Memo.{Remembers, MemoReady};

use crate::frames::{frames_want, node_fits};
use block::{Area, Layout};
use limits::Limits;
use machine::Want;
use members::Code;
use memo::MEMO;
use values::value_fits;

// Seven parameters, as `frames_want` has.
// Are the frames of position i typed, and does its node or value meet what they expect? A failed thread always fits. `from` is the number of its first frame.
fn position_fits(
    code: &Code,
    table: &mut [u16],
    block: &[u8; Limits::BLOCK],
    memo: &mut [u16],
    i: usize,
    from: usize,
    want: Want,
) -> bool
    requires memo_ready { Blank table.old × MemoReady code.now.script.bytes.now block.now memo.old }
    requires i_bound { (i < counted block.now Positions) × (from ≡ frames_before block.now i) }
    ensures value { result ≡ position_test (code_of code.now.script.bytes.now) (config_read code.now.script.bytes.now block.now).stores want
        (place_at code.now.script.bytes.now block.now i) }
    ensures table_unchanged { table.new ≡ table.old }
    ensures remembers { Remembers code.now.script.bytes.now block.now memo.new }
{
    let kind = areas::word(block, Area::Positions, i, Layout::KIND);
    if kind == Layout::FAILED {
        return true;
    }
    let n = areas::word(block, Area::Positions, i, Layout::WAITING) as usize;
    let Some(v) = frames_want(code, table, block, memo, from, n, want) else {
        return false;
    };
    if kind == Layout::RETURNING {
        let x = areas::value(block, Area::Positions, i, Layout::RESULT);
        return value_fits(&code.script, block, x, v);
    }
    let a = areas::word(block, Area::Positions, i, Layout::NODE);
    let e = areas::word(block, Area::Positions, i, Layout::ENV);
    node_fits(code, table, block, a, e, v)
}

// Are all positions typed, "up to the start's type or below at the root and to any type at an async"? The table is lent as zeros, and is zeros again
// afterwards.
pub fn tree_fits(code: &Code, table: &mut [u16], block: &[u8; Limits::BLOCK], t: u16) -> bool
    requires { Blank table.old × ScopedBlock code.now.script.bytes.now block.now }
    ensures value { result ≡ tree_test (code_of code.now.script.bytes.now) (config_read code.now.script.bytes.now block.now).stores (upto t)
        (config_read code.now.script.bytes.now block.now).tree }
    ensures table_unchanged { table.new ≡ table.old }
{
    let count = areas::count(block, Area::Positions);
    let mut memo = [0u16; MEMO];
    let mut want = Want::Upto(t);
    let mut from: usize = 0;
    for i in 0..count {
        if !position_fits(code, table, block, &mut memo, i, from, want) {
            return false;
        }
        want = Want::Any;
        from += areas::word(block, Area::Positions, i, Layout::WAITING) as usize;
    }
    true
}
