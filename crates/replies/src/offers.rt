// Offer.
ghost use Rattle.std.specs.Prelude.{◌≡◌, length};
ghost use Rattle.limits.specs.Limits.{BLOCK, FLAGS};
ghost use Rattle.script.specs.Statements.{WithinLayout};
ghost use Rattle.std.specs.declared.result.Result.TheVariants.{Ok};
ghost use Rattle.typing.specs.Check.{check_of};
ghost use Rattle.subtypes.specs.Tables.{Starts};
ghost use Rattle.names.specs.Facts.{Facts};
ghost use Rattle.calls.specs.Calls.{parts_asked, offered_from};
ghost use Rattle.replies.specs.RunResults.{refusal_number};

use calls::LentQuestion;
use limits::Limits;
use members::Code;
use names::RANKS;
use subtypes::Script;
use wellformed::well_formed;

// What a call is lent, with what Check says of it, becomes a Code here.
// Offer on an accepted script whose start has type t: the questions about the parts of the block, of which the first no is told, and then the flags.
pub fn offer<'a>(
    s: &'a [u8],
    starts: &'a [u16],
    facts: &'a [u16],
    t: u16,
    block: &[u8; Limits::BLOCK],
    flags: &mut [u8],
) -> Result<(), LentQuestion>
    requires within_layout { WithinLayout s.now × Starts s.now starts.now × Facts s.now facts.now × (check_of s.now ≡ Ok t) }
    requires block_len { length flags.old ≡ FLAGS }
    ensures number { refusal_number result ≡ (offered_from s.now block.now flags.old (parts_asked s.now t block.now)).number }
    ensures flags { flags.new ≡ (offered_from s.now block.now flags.old
        (parts_asked s.now t block.now)).flags }
{
    let code = Code {
        script: Script { bytes: s, starts },
        facts,
    };
    let mut table = [0u16; RANKS];
    well_formed(&code, &mut table, t, block)?;
    enabled::mark(code.script.bytes, block, flags);
    Ok(())
}
