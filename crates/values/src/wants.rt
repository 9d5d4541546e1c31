// Does a type, or null, meet what is wanted?
ghost use Rattle.std.specs.Prelude.{◌≡◌};
ghost use Rattle.script.specs.Statements.{WithinLayout};
ghost use Rattle.machine.specs.Config.{code_of};
ghost use Rattle.machine.specs.Decide.{meets_test, null_meets_test};

use machine::Want;
use subtypes::{Script, int_of};

// Does the type t meet what is expected? Where any type is expected it does, else it must be the expected type or below.
pub fn meets(script: &Script, t: u16, want: Want) -> bool
    ensures { result ≡ meets_test (code_of script.now.bytes.now) t want }
{
    match want {
        Want::Any => true,
        Want::Upto(u) => script.is_below(t, u),
    }
}

// The bytes, of which Int's number is read, and no Script: that would ask callers for its runs as well.
// Does null meet what is expected? "Null does not fit Int (14)"
pub fn null_meets(s: &[u8], want: Want) -> bool
    requires { WithinLayout s.now }
    ensures { result ≡ null_meets_test (code_of s.now) want }
{
    match want {
        Want::Any => true,
        Want::Upto(t) => t != int_of(s),
    }
}
