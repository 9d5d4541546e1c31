// Run.
ghost use Rattle.std.specs.Prelude.{◌≡◌};
ghost use Rattle.calls.specs.Calls.{run_of};

use c_replies::RunReply;

// Run: questions 1 to 15 about the script, then 20, 22, 21, 26 and 27. A yes to all makes the moves that the choices name; a no leaves every byte as it was.
pub fn oolong_run(script: &[u8], block: &mut [u8], choices: &[u8]) -> RunReply
    ensures script { script.now ≡ script.now }
    ensures choices { choices.now ≡ choices.now }
    ensures number { result.number ≡ (run_of script.now block.old choices.now).number }
    ensures place { result.place ≡ (run_of script.now block.old choices.now).place }
    ensures stop { result.stop ≡ (run_of script.now block.old choices.now).stop }
    ensures read { result.read ≡ (run_of script.now block.old choices.now).read }
    ensures moves { result.moves ≡ (run_of script.now block.old choices.now).moves }
    ensures block { block.new ≡ (run_of script.now block.old choices.now).block }
{
    run_call::run(script, block, choices)
}
