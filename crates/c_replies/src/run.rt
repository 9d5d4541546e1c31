// Run's reply.
ghost use Rattle.std.specs.Prelude.{◌≡◌};
ghost use Rattle.script.specs.Asking.{number_of};
ghost use Rattle.calls.specs.Calls.{lent_number};
ghost use Rattle.c_replies.specs.declared.run.RunReply.{RunReply};

use calls::LentQuestion;
use numbers::{lent_number, number_of};
use script::Refusal;

// Run's reply: the number of the question that gets a no and its place, or 0 and 0 with the stop, choices read and moves made.
#[repr(C)]
#[derive(Clone, Copy)]
pub struct RunReply {
    pub number: u16,
    pub place: u16,
    pub stop: u16,
    pub read: u16,
    pub moves: u16,
}

impl RunReply {
    // "A refusal returns its number and place, with every other number 0"
    fn refused(number: u16, place: u16) -> Self
        ensures { result ≡ record { number = number; place = place; stop = 0; read = 0; moves = 0 } }
    {
        RunReply {
            number,
            place,
            stop: 0,
            read: 0,
            moves: 0,
        }
    }

    // "A call that is not refused has number 0 and place 0."
    pub fn accepted(stop: u16, read: u16, moves: u16) -> Self
        ensures { result ≡ record { number = 0; place = 0; stop = stop; read = read; moves = moves } }
    {
        RunReply {
            number: 0,
            place: 0,
            stop,
            read,
            moves,
        }
    }
}

impl From<Refusal> for RunReply {
    ghost from_gives = { λ no reply. reply ≡ record { number = number_of no.question; place = no.place; stop = 0; read = 0; moves = 0 } };

    fn from(no: Refusal) -> Self {
        RunReply::refused(number_of(no.question), no.place)
    }
}

// The place of a no to a question about what is lent beside the script is 0.
impl From<LentQuestion> for RunReply {
    ghost from_gives = { λ question reply. reply ≡ record { number = lent_number question; place = 0; stop = 0; read = 0; moves = 0 } };

    fn from(question: LentQuestion) -> Self {
        RunReply::refused(lent_number(question), 0)
    }
}
