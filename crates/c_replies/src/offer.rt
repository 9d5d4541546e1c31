// Offer's reply.
ghost use Rattle.std.specs.Prelude.{◌≡◌};
ghost use Rattle.script.specs.Asking.{number_of};
ghost use Rattle.calls.specs.Calls.{lent_number};
ghost use Rattle.c_replies.specs.declared.offer.OfferReply.{OfferReply};

use calls::LentQuestion;
use numbers::{lent_number, number_of};
use script::Refusal;

// Offer's reply: the number of the question that gets a no and its place, or 0 and 0. Start's has the same fields, and is a type of its own in C.
#[repr(C)]
#[derive(Clone, Copy)]
pub struct OfferReply {
    pub number: u16,
    pub place: u16,
}

impl OfferReply {
    // "A call that is not refused has number 0 and place 0."
    pub const ACCEPTED: OfferReply = OfferReply {
        number: 0,
        place: 0,
    };
}

// "A refusal returns its number and place"
impl From<Refusal> for OfferReply {
    ghost from_gives = { λ no reply. reply ≡ record { number = number_of no.question; place = no.place } };

    fn from(no: Refusal) -> Self {
        OfferReply {
            number: number_of(no.question),
            place: no.place,
        }
    }
}

// The place of a no to a question about what is lent beside the script is 0.
impl From<LentQuestion> for OfferReply {
    ghost from_gives = { λ question reply. reply ≡ record { number = lent_number question; place = 0 } };

    fn from(question: LentQuestion) -> Self {
        OfferReply {
            number: lent_number(question),
            place: 0,
        }
    }
}
