// Silent's reply.
ghost use Rattle.std.specs.Prelude.{◌≡◌};
ghost use Rattle.script.specs.Asking.{number_of};
ghost use Rattle.c_replies.specs.declared.silent.SilentReply.{SilentReply};

use numbers::number_of;
use script::Refusal;

// Silent's reply: the number of the question that gets a no and its place, or 0 and 0 with the count.
#[repr(C)]
#[derive(Clone, Copy)]
pub struct SilentReply {
    pub number: u16,
    pub place: u16,
    pub count: u16,
}

impl SilentReply {
    // "A call that is not refused has number 0 and place 0."
    pub fn accepted(count: u16) -> Self
        ensures { result ≡ record { number = 0; place = 0; count = count } }
    {
        SilentReply {
            number: 0,
            place: 0,
            count,
        }
    }
}

// "A refusal returns its number and place, with every other number 0"
impl From<Refusal> for SilentReply {
    ghost from_gives = { λ no reply. reply ≡ record { number = number_of no.question; place = no.place; count = 0 } };

    fn from(no: Refusal) -> Self {
        SilentReply {
            number: number_of(no.question),
            place: no.place,
            count: 0,
        }
    }
}
