// Offer.
ghost use Rattle.std.specs.Prelude.{◌≡◌};
ghost use Rattle.calls.specs.Calls.{offer_of};

use c_replies::OfferReply;

// Offer: questions 1 to 15 about the script, then 20, 22, 21, 26 and 27. A yes to all sets the flags; a no leaves them as they were. The block is only read.
pub fn oolong_offer(script: &[u8], block: &[u8], flags: &mut [u8]) -> OfferReply
    ensures script { script.now ≡ script.now }
    ensures block { block.now ≡ (offer_of script.now block.now flags.old).block }
    ensures number { result.number ≡ (offer_of script.now block.now flags.old).number }
    ensures place { result.place ≡ (offer_of script.now block.now flags.old).place }
    ensures flags { flags.new ≡ (offer_of script.now block.now flags.old).flags }
{
    offer_call::offer(script, block, flags)
}
