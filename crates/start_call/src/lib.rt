// Start's call: the questions about script and block, the initial block, and the reply.
#![tactic(auto)]

ghost use Rattle.std.specs.Prelude.{◌≡◌, length};
ghost use Rattle.limits.specs.Limits.{BLOCK};
ghost use Rattle.machine.specs.Machine.{initial};
ghost use Rattle.block.specs.Block.{encode};
ghost use Rattle.calls.specs.Calls.{start_of};

use block::{Area, Layout};
use c_replies::StartReply;
use calls::LentQuestion;
use limits::Limits;

// "Start writes the initial block over anything"
fn write_initial(block: &mut [u8; Limits::BLOCK])
    ensures { block.new ≡ encode initial }
{
    slices::clear(block);
    areas::put(block, Area::Positions, 0, Layout::KIND, Layout::RUNNING);
    areas::put_count(block, Area::Positions, 1);
}

// Start: questions 1 to 15 about the script, then 20 about the block. A yes to all writes the initial block over whatever was there; a no leaves every byte as
// it was.
pub fn start(script: &[u8], block: &mut [u8]) -> StartReply
    ensures script { script.now ≡ script.now }
    ensures number { result.number ≡ (start_of script.now block.old).number }
    ensures place { result.place ≡ (start_of script.now block.old).place }
    ensures block { block.new ≡ (start_of script.now block.old).block }
{
    if let Err(refusal) = check_call::ask_script(script) {
        return StartReply::from(refusal);
    }
    let Some(block) = block.as_mut_array::<{ Limits::BLOCK }>() else {
        return StartReply::from(LentQuestion::BlockLength);
    };
    write_initial(block);
    StartReply::ACCEPTED
}
