// What let frames wait for, kept in a memo: the frames of one let in one scope wait for the same.
#![tactic(auto)]

ghost use Rattle.std.specs.Prelude.{◌≡◌, ◌+◌, ◌*◌, ◌<◌, length};
ghost use Rattle.limits.specs.Limits.{NODES};
ghost use Rattle.words.specs.Word.{WORD};
ghost use Rattle.script.specs.declared.Kind.TheVariants.{Let as bind_kind};
ghost use Rattle.script.specs.Section.{node_word};
ghost use Rattle.script.specs.Reading.{kind_of};
ghost use Rattle.members.specs.Code.{Blank};
ghost use Rattle.environments.specs.Chains.{Chain};
ghost use Rattle.awaited.specs.Awaited.{WaitsAs, NodeUnder};
ghost use Rattle.memo.specs.Memo.{WIDTH as ENTRY-WIDTH, MemoBounded, Remembers, MemoReady, Recalls, with_entry};

use awaited::{Waits, let_waits};
use environments::same_scope;
use limits::Limits;
use members::Code;

// The words of an entry: an environment and 1 more, or 0 where none is kept; the type that is waited for; and the one that is given and 1 more, or 0 for a
// null. There is an entry for each node. Words and no Option of an enum: an entry lies on the stack, 6 bytes in place of 10.
const WIDTH: usize = 3;

pub const MEMO: usize = Limits::NODES * WIDTH;

// What is kept for node n, if it is of the scope of environment e.
fn recall(block: &[u8; Limits::BLOCK], memo: &[u16], n: u16, e: u16) -> Option<Waits>
    requires { Chain block.now e × MemoBounded block.now memo.now × (n < NODES) }
    ensures { Recalls block.now memo.now n e result }
{
    let at = n as usize * WIDTH;
    let word = memo[at];
    if word == 0 {
        return None;
    }
    if !same_scope(block, word - 1, e) {
        return None;
    }
    let t = memo[at + 1];
    let given = memo[at + 2];
    if given == 0 {
        return Some(Waits::ForNull(t));
    }
    Some(Waits::For(t, given - 1))
}

// Keeps for node n in environment e that it waits for type t, and what it gives.
fn remember(memo: &mut [u16], n: u16, e: u16, t: u16, given: u16)
    requires { (length memo.old ≡ NODES * ENTRY-WIDTH) × (n < NODES) × (e + 1 < WORD) }
    ensures { memo.new ≡ with_entry memo.old n e t given }
{
    let at = n as usize * WIDTH;
    memo[at] = e + 1;
    memo[at + 1] = t;
    memo[at + 2] = given;
}

// What the let n waits for in environment e, from the memo if it is kept there; else it is inferred, and kept.
pub fn let_recalled(
    code: &Code,
    table: &mut [u16],
    block: &[u8; Limits::BLOCK],
    memo: &mut [u16],
    n: u16,
    e: u16,
) -> Option<Waits>
    requires memo_ready { Blank table.old × MemoReady code.now.script.bytes.now block.now memo.old }
    requires node_under { NodeUnder code.now.script.bytes.now block.now n e × (kind_of (node_word code.now.script.bytes.now n 0) ≡ bind_kind) }
    ensures waits_as { WaitsAs code.now.script.bytes.now block.now n e result }
    ensures table_unchanged { table.new ≡ table.old }
    ensures remembers { Remembers code.now.script.bytes.now block.now memo.new }
{
    if let Some(w) = recall(block, memo, n, e) {
        return Some(w);
    }
    let w = let_waits(code, table, block, n, e)?;
    match w {
        Waits::For(t, u) => remember(memo, n, e, t, u + 1),
        Waits::ForNull(t) => remember(memo, n, e, t, 0),
    }
    Some(w)
}
