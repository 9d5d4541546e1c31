// Run.
ghost use Rattle.std.specs.Prelude.{◌≡◌, ◌≤◌, length, Ok};
ghost use Rattle.limits.specs.Limits.{BLOCK, CHOICES};
ghost use Rattle.script.specs.Statements.{WithinLayout};
ghost use Rattle.std.specs.declared.result.Result.TheVariants.{Ok};
ghost use Rattle.typing.specs.Check.{check_of};
ghost use Rattle.subtypes.specs.Tables.{Starts};
ghost use Rattle.names.specs.Facts.{Facts};
ghost use Rattle.members.specs.Code.{Blank};
ghost use Rattle.machine.specs.Config.{code_of};
ghost use Rattle.machine.specs.Machine.{limits};
ghost use Rattle.machine.specs.Runs.{report};
ghost use Rattle.calls.specs.Calls.{parts_asked, ran, ran_from};
ghost use Rattle.replies.specs.RunResults.{Replied, Runnable};

use crate::Played;
use calls::LentQuestion;
use limits::Limits;
use members::Code;
use names::RANKS;
use subtypes::Script;
use wellformed::well_formed;

// The run of a block that holds a configuration.
fn run_formed(
    code: &Code,
    table: &mut [u16],
    block: &mut [u8; Limits::BLOCK],
    choices: &[u8],
) -> Played
    requires { Blank table.old × Runnable code.now.script.bytes.now block.old × (length choices.now ≤ CHOICES) }
    ensures { (x : Runnable code.now.script.bytes.now block.old) →
        Replied (ran (report (code_of code.now.script.bytes.now) limits x.config choices.now)) block.new (Ok result) }
{
    let ran = runs::run_choices(code, table, block, choices);
    Played {
        stop: numbers::stop_number(ran.stop),
        read: ran.read as u16,
        moves: ran.moves as u16,
    }
}

// What a call is lent, with what Check says of it, becomes a Code here.
// Run on an accepted script whose start has type t: the questions about the parts of the block, and then the run.
pub fn run<'a>(
    s: &'a [u8],
    starts: &'a [u16],
    facts: &'a [u16],
    t: u16,
    block: &mut [u8; Limits::BLOCK],
    choices: &[u8],
) -> Result<Played, LentQuestion>
    requires within_layout { WithinLayout s.now × Starts s.now starts.now × Facts s.now facts.now × (check_of s.now ≡ Ok t) }
    requires block_len { length choices.now ≤ CHOICES }
    ensures { Replied (ran_from s.now block.old choices.now (parts_asked s.now t block.old))
        block.new result }
{
    let code = Code {
        script: Script { bytes: s, starts },
        facts,
    };
    let mut table = [0u16; RANKS];
    well_formed(&code, &mut table, t, block)?;
    Ok(run_formed(&code, &mut table, block, choices))
}
