// The numbers of the questions.
ghost use Rattle.std.specs.Prelude.{◌≡◌};
ghost use Rattle.script.specs.Asking.{number_of};
ghost use Rattle.calls.specs.Calls.{lent_number};

use calls::LentQuestion;
use script::Question;

// Functions and no From: neither u16 nor the enums are of this crate, and the numbers stand as discriminants where the enums are declared.
// A no gives the question's number.
pub fn number_of(question: Question) -> u16
    ensures { result ≡ number_of question }
{
    question as u16
}

// The same of a question about what is lent beside the script.
pub fn lent_number(lent: LentQuestion) -> u16
    ensures { result ≡ lent_number lent }
{
    lent as u16
}
