// Check's call: questions 1 to 15 about a script, the most silent moves in a row, and the reply.
#![tactic(auto)]

ghost use Rattle.std.specs.Prelude.{◌≡◌};
ghost use Rattle.typing.specs.Check.{check_of, verdict_number, verdict_place, verdict_type};
ghost use Rattle.calls.specs.Calls.{verdict_silent};

use c_replies::CheckReply;
use names::FACTS;
use script::Refusal;
use subtypes::STARTS;

// What questions 1 to 15 say of a script, whatever its bytes and its length, for a caller that needs no table.
pub fn ask_script(script: &[u8]) -> Result<u16, Refusal>
    ensures { result ≡ check_of script.now }
{
    let mut starts = [0u16; STARTS];
    let mut facts = [0u16; FACTS];
    checker::verdict_of(script, &mut starts, &mut facts)
}

// Check: questions 1 to 15 about a script, whatever its bytes and its length.
pub fn check(script: &[u8]) -> CheckReply
    ensures script { script.now ≡ script.now }
    ensures number { result.number ≡ verdict_number (check_of script.now) }
    ensures place { result.place ≡ verdict_place (check_of script.now) }
    ensures start_type { result.start_type ≡ verdict_type (check_of script.now) }
    ensures silent { result.silent ≡ verdict_silent script.now (check_of script.now) }
{
    match ask_script(script) {
        Ok(start_type) => {
            let silent = silent::most_silent(script);
            CheckReply::accepted(start_type, silent)
        }
        Err(refusal) => CheckReply::from(refusal),
    }
}
