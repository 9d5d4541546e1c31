// Offer's call: the questions about script, block and flags, the flags, and the reply.
#![tactic(auto)]

ghost use Rattle.std.specs.Prelude.{◌≡◌};
ghost use Rattle.calls.specs.Calls.{offer_of};

use c_replies::OfferReply;
use calls::LentQuestion;
use limits::Limits;
use names::FACTS;
use subtypes::STARTS;

// Offer: questions 1 to 15 about the script, then 20, 22, 21, 26 and 27. A yes to all sets the flags; a no leaves them as they were. The block is only read.
pub fn offer(script: &[u8], block: &[u8], flags: &mut [u8]) -> OfferReply
    ensures script { script.now ≡ script.now }
    ensures block { block.now ≡ (offer_of script.now block.now flags.old).block }
    ensures number { result.number ≡ (offer_of script.now block.now flags.old).number }
    ensures place { result.place ≡ (offer_of script.now block.now flags.old).place }
    ensures flags { flags.new ≡ (offer_of script.now block.now flags.old).flags }
{
    let mut starts = [0u16; STARTS];
    let mut facts = [0u16; FACTS];
    let t = match checker::verdict_of(script, &mut starts, &mut facts) {
        Ok(t) => t,
        Err(refusal) => return OfferReply::from(refusal),
    };
    let Some(block) = block.as_array::<{ Limits::BLOCK }>() else {
        return OfferReply::from(LentQuestion::BlockLength);
    };
    if flags.len() != Limits::FLAGS {
        return OfferReply::from(LentQuestion::BufferLength);
    }
    match replies::offer(script, &starts, &facts, t, block, flags) {
        Ok(()) => OfferReply::ACCEPTED,
        Err(question) => OfferReply::from(question),
    }
}
