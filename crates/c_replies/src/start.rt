// Start's reply.
ghost use Rattle.std.specs.Prelude.{◌≡◌};
ghost use Rattle.script.specs.Asking.{number_of};
ghost use Rattle.calls.specs.Calls.{lent_number};
ghost use Rattle.c_replies.specs.declared.start.StartReply.{StartReply};

use calls::LentQuestion;
use numbers::{lent_number, number_of};
use script::Refusal;

// Start's reply: the number of the question that gets a no and its place, or 0 and 0. Offer's has the same fields, and is a type of its own in C.
#[repr(C)]
#[derive(Clone, Copy)]
pub struct StartReply {
    pub number: u16,
    pub place: u16,
}

impl StartReply {
    // "A call that is not refused has number 0 and place 0."
    pub const ACCEPTED: StartReply = StartReply {
        number: 0,
        place: 0,
    };
}

// "A refusal returns its number and place"
impl From<Refusal> for StartReply {
    ghost from_gives = { λ no reply. reply ≡ record { number = number_of no.question; place = no.place } };

    fn from(no: Refusal) -> Self {
        StartReply {
            number: number_of(no.question),
            place: no.place,
        }
    }
}

// The place of a no to a question about what is lent beside the script is 0.
impl From<LentQuestion> for StartReply {
    ghost from_gives = { λ question reply. reply ≡ record { number = lent_number question; place = 0 } };

    fn from(question: LentQuestion) -> Self {
        StartReply {
            number: lent_number(question),
            place: 0,
        }
    }
}
