// Check.
ghost use Rattle.std.specs.Prelude.{◌≡◌};
ghost use Rattle.typing.specs.Check.{check_of, verdict_number, verdict_place, verdict_type};
ghost use Rattle.calls.specs.Calls.{verdict_silent};

use c_replies::CheckReply;

// Check: questions 1 to 15 about a script, whatever its bytes and its length.
pub fn oolong_check(script: &[u8]) -> CheckReply
    ensures script { script.now ≡ script.now }
    ensures number { result.number ≡ verdict_number (check_of script.now) }
    ensures place { result.place ≡ verdict_place (check_of script.now) }
    ensures start_type { result.start_type ≡ verdict_type (check_of script.now) }
    ensures silent { result.silent ≡ verdict_silent script.now (check_of script.now) }
{
    check_call::check(script)
}
