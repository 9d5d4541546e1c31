// Check's reply.
ghost use Rattle.std.specs.Prelude.{◌≡◌};
ghost use Rattle.script.specs.Asking.{number_of};
ghost use Rattle.c_replies.specs.declared.check.CheckReply.{CheckReply};

use numbers::number_of;
use script::Refusal;

// Check's reply: the number of the question that gets a no and its place, or 0 and 0 with the start's type and the most silent moves in a row.
#[repr(C)]
#[derive(Clone, Copy)]
pub struct CheckReply {
    pub number: u16,
    pub place: u16,
    pub start_type: u16,
    pub silent: u16,
}

impl CheckReply {
    // "A call that is not refused has number 0 and place 0."
    pub fn accepted(start_type: u16, silent: u16) -> Self
        ensures { result ≡ record { number = 0; place = 0; start_type = start_type; silent = silent } }
    {
        CheckReply {
            number: 0,
            place: 0,
            start_type,
            silent,
        }
    }
}

// "A refusal returns its number and place, with every other number 0"
impl From<Refusal> for CheckReply {
    ghost from_gives = { λ no reply. reply ≡ record { number = number_of no.question; place = no.place; start_type = 0; silent = 0 } };

    fn from(no: Refusal) -> Self {
        CheckReply {
            number: number_of(no.question),
            place: no.place,
            start_type: 0,
            silent: 0,
        }
    }
}
