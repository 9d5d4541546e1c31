// Run's call: the questions about script, block and choices, the run, and the reply.
#![tactic(auto)]

ghost use Rattle.std.specs.Prelude.{◌≡◌};
ghost use Rattle.calls.specs.Calls.{run_of};

use c_replies::RunReply;
use calls::LentQuestion;
use limits::Limits;
use names::FACTS;
use subtypes::STARTS;

// Run: questions 1 to 15 about the script, then 20, 22, 21, 26 and 27. A yes to all makes the moves that the choices name; a no leaves every byte as it was.
pub fn run(script: &[u8], block: &mut [u8], choices: &[u8]) -> RunReply
    ensures script { script.now ≡ script.now }
    ensures choices { choices.now ≡ choices.now }
    ensures number { result.number ≡ (run_of script.now block.old choices.now).number }
    ensures place { result.place ≡ (run_of script.now block.old choices.now).place }
    ensures stop { result.stop ≡ (run_of script.now block.old choices.now).stop }
    ensures read { result.read ≡ (run_of script.now block.old choices.now).read }
    ensures moves { result.moves ≡ (run_of script.now block.old choices.now).moves }
    ensures block { block.new ≡ (run_of script.now block.old choices.now).block }
{
    let mut starts = [0u16; STARTS];
    let mut facts = [0u16; FACTS];
    let t = match checker::verdict_of(script, &mut starts, &mut facts) {
        Ok(t) => t,
        Err(refusal) => return RunReply::from(refusal),
    };
    let Some(block) = block.as_mut_array::<{ Limits::BLOCK }>() else {
        return RunReply::from(LentQuestion::BlockLength);
    };
    if Limits::CHOICES < choices.len() {
        return RunReply::from(LentQuestion::BufferLength);
    }
    match replies::run(script, &starts, &facts, t, block, choices) {
        Ok(played) => RunReply::accepted(played.stop, played.read, played.moves),
        Err(question) => RunReply::from(question),
    }
}
