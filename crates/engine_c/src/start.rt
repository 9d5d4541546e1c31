// Start.
ghost use Rattle.std.specs.Prelude.{◌≡◌};
ghost use Rattle.calls.specs.Calls.{start_of};

use c_replies::StartReply;

// Start: questions 1 to 15 about the script, then 20 about the block. A yes to all writes the initial block over whatever was there; a no leaves every byte as
// it was.
#[unsafe(no_mangle)]
pub extern "C" fn oolong_start(script: &[u8], block: &mut [u8]) -> StartReply
    ensures script { script.now ≡ script.now }
    ensures number { result.number ≡ (start_of script.now block.old).number }
    ensures place { result.place ≡ (start_of script.now block.old).place }
    ensures block { block.new ≡ (start_of script.now block.old).block }
{
    engine::oolong_start(script, block)
}
