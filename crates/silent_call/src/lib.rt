// Silent's call: questions 1 to 15 about a script, the count of a node, and the reply.
#![tactic(auto)]

ghost use Rattle.std.specs.Prelude.{◌≡◌};
ghost use Rattle.calls.specs.Calls.{silent_of};

use c_replies::SilentReply;

// Silent: questions 1 to 15 about the script, and then how many silent moves a thread at the node makes in a row, 0 where no such node is.
pub fn silent(script: &[u8], node: u32) -> SilentReply
    ensures script { script.now ≡ script.now }
    ensures number { result.number ≡ (silent_of script.now node).number }
    ensures place { result.place ≡ (silent_of script.now node).place }
    ensures count { result.count ≡ (silent_of script.now node).count }
{
    match check_call::ask_script(script) {
        Ok(_) => SilentReply::accepted(silent::silent_from(script, node)),
        Err(refusal) => SilentReply::from(refusal),
    }
}
