// What the frames of a position expect, and whether a node meets it: "frames are typed up to the start's type or below at the root and to any type at an
// async".
ghost use Rattle.std.specs.Prelude.{◌≡◌, ◌+◌, ◌<◌, ◌≤◌, get_or};
ghost use Rattle.members.specs.Code.{Blank};
ghost use Rattle.machine.specs.declared.Frame.TheVariants.{Awaits as awaits};
ghost use Rattle.machine.specs.Config.{code_of};
ghost use Rattle.machine.specs.Decide.{expects};
ghost use Rattle.block.specs.declared.Area.TheVariants.{Frames};
ghost use Rattle.block.specs.Layout.{counted};
ghost use Rattle.environments.specs.Chains.{bindings_in};
ghost use Rattle.awaited.specs.Awaited.{expects_of, WaitsAs, ScopedBlock, NodeUnder};
ghost use Rattle.frames.specs.Expecting.{AwaitsAs, CastsAs, frame_step, frames_in, frames_from, node_meets_test};
ghost use Rattle.memo.specs.Memo.{Remembers, MemoReady};

use awaited::{Waits, call_waits, expected, given_meets, write_waits};
use block::Area;
use limits::Limits;
use machine::{Frame, Want};
use members::Code;
use memo::let_recalled;
use script::{Kind, Section};
use sections::{count_of, kind_at, node_word};
use subtypes::Script;

// What node n waits for in the environment e, as a frame: a write, a call or a let.
fn node_waits(
    code: &Code,
    table: &mut [u16],
    block: &[u8; Limits::BLOCK],
    memo: &mut [u16],
    n: u16,
    e: u16,
) -> Option<Waits>
    requires memo_ready { Blank table.old × MemoReady code.now.script.bytes.now block.now memo.old }
    requires node_under { NodeUnder code.now.script.bytes.now block.now n e }
    ensures waits_as { WaitsAs code.now.script.bytes.now block.now n e result }
    ensures table_unchanged { table.new ≡ table.old }
    ensures remembers { Remembers code.now.script.bytes.now block.now memo.new }
{
    match kind_at(code.script.bytes, n) {
        Kind::Update => write_waits(&code.script, block, n, e),
        Kind::Call => call_waits(&code.script, block, n, e),
        Kind::Let => let_recalled(code, table, block, memo, n, e),
        _ => None,
    }
}

// What the frame of node n in the environment e waits for: the node must be one of the script's and the environment one of the block's.
fn awaits_waits(
    code: &Code,
    table: &mut [u16],
    block: &[u8; Limits::BLOCK],
    memo: &mut [u16],
    n: u16,
    e: u16,
) -> Option<Waits>
    requires { Blank table.old × MemoReady code.now.script.bytes.now block.now memo.old }
    ensures awaits_as { AwaitsAs code.now.script.bytes.now block.now n e result }
    ensures table_unchanged { table.new ≡ table.old }
    ensures remembers { Remembers code.now.script.bytes.now block.now memo.new }
{
    if count_of(code.script.bytes, Section::Nodes) <= n as usize {
        return None;
    }
    if areas::count(block, Area::Bindings) < e as usize {
        return None;
    }
    node_waits(code, table, block, memo, n, e)
}

// The frame of the cast n waits for a value of its type, and gives it.
fn cast_waits(script: &Script, n: u16) -> Option<Waits>
    ensures { CastsAs script.now.bytes.now n result }
{
    if count_of(script.bytes, Section::Nodes) <= n as usize {
        return None;
    }
    let Kind::Cast = kind_at(script.bytes, n) else {
        return None;
    };
    let t = node_word(script.bytes, n, 1);
    Some(Waits::For(t, t))
}

// What frame i expects, where `want` is expected beneath it. A lock frame lets its value through.
fn frame_want(
    code: &Code,
    table: &mut [u16],
    block: &[u8; Limits::BLOCK],
    memo: &mut [u16],
    i: usize,
    want: Want,
) -> Option<Want>
    requires memo_ready { Blank table.old × MemoReady code.now.script.bytes.now block.now memo.old }
    requires i_bound { i < counted block.now Frames }
    ensures value { result ≡ expects_of
        (frame_step (code_of code.now.script.bytes.now) (bindings_in block.now) (get_or (frames_in code.now.script.bytes.now block.now) i (awaits 0 0)) want) }
    ensures table_unchanged { table.new ≡ table.old }
    ensures remembers { Remembers code.now.script.bytes.now block.now memo.new }
{
    match areas::frame(block, i) {
        Frame::Awaits(n, e) => {
            let w = awaits_waits(code, table, block, memo, n, e);
            expected(&code.script, w, want)
        }
        Frame::Casts(n) => expected(&code.script, cast_waits(&code.script, n), want),
        Frame::Locks(_) => Some(want),
    }
}

// The table and the memo are lent apart from the code, which is shared while they are written; so the parameters are seven.
// What the n frames from number `from` on expect, where `want` is expected beneath the outermost, which stands first.
pub fn frames_want(
    code: &Code,
    table: &mut [u16],
    block: &[u8; Limits::BLOCK],
    memo: &mut [u16],
    from: usize,
    n: usize,
    want: Want,
) -> Option<Want>
    requires memo_ready { Blank table.old × MemoReady code.now.script.bytes.now block.now memo.old }
    requires n_bound { from + n ≤ counted block.now Frames }
    ensures value { result ≡ expects_of
        (expects (code_of code.now.script.bytes.now) (bindings_in block.now) want (frames_from code.now.script.bytes.now block.now from n)) }
    ensures table_unchanged { table.new ≡ table.old }
    ensures remembers { Remembers code.now.script.bytes.now block.now memo.new }
{
    let mut w = want;
    for k in 0..n {
        w = frame_want(code, table, block, memo, from + k, w)?;
    }
    Some(w)
}

// Is node n one of the script's, e an environment of the block, and does what the node gives meet `want`?
pub fn node_fits(
    code: &Code,
    table: &mut [u16],
    block: &[u8; Limits::BLOCK],
    n: u16,
    e: u16,
    want: Want,
) -> bool
    requires { Blank table.old × ScopedBlock code.now.script.bytes.now block.now }
    ensures value { result ≡ node_meets_test (code_of code.now.script.bytes.now) (bindings_in block.now) n e want }
    ensures table_unchanged { table.new ≡ table.old }
{
    if count_of(code.script.bytes, Section::Nodes) <= n as usize {
        return false;
    }
    if areas::count(block, Area::Bindings) < e as usize {
        return false;
    }
    let g = environments::infer_under(code, table, block, e, n);
    given_meets(&code.script, g, want)
}
