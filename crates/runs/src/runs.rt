// Run: "first looks, then looks after every choice".
ghost use Rattle.std.specs.Prelude.{◌≡◌, ◌≤◌, length};
ghost use Rattle.std.proofs.Math.Option.{none};
ghost use Rattle.limits.specs.Limits.{CHOICES};
ghost use Rattle.members.specs.Code.{Blank};
ghost use Rattle.machine.specs.Config.{code_of};
ghost use Rattle.machine.specs.Machine.{limits};
ghost use Rattle.machine.specs.Runs.{look as seen, report};
ghost use Rattle.enabled.specs.Looks.{Standing};
ghost use Rattle.runs.specs.Reports.{TakenAs, RanAs};

use crate::{Ran, Taken};
use choices::choose;
use enabled::look;
use limits::Limits;
use machine::Stop;
use members::Code;
use moves::Effect;

// The choice of a position where something can move, and the look after it. Where no move was made nothing has changed, and the look is spared.
fn take_choice(code: &Code, table: &mut [u16], block: &mut [u8; Limits::BLOCK], n: usize) -> Taken
    requires { Blank table.old × Standing code.now.script.bytes.now block.old }
    ensures taken_as { (x : Standing code.now.script.bytes.now block.old) →
        seen (code_of code.now.script.bytes.now) limits x.config ≡ none →
        TakenAs code.now.script.bytes.now block.new x.type x.config n result }
    ensures table_unchanged { (table.new ≡ table.old) × (result.made ≤ 1) }
{
    match choose(code, table, block, n) {
        Effect::Still => Taken {
            made: 0,
            next: None,
        },
        Effect::Moved => Taken {
            made: 1,
            next: look(code.script.bytes, block, n).map(Stop::Ended),
        },
        Effect::Full(k) => Taken {
            made: 0,
            next: Some(Stop::Full(k)),
        },
    }
}

// The run from a configuration in which something can move.
fn follow(code: &Code, table: &mut [u16], block: &mut [u8; Limits::BLOCK], choices: &[u8]) -> Ran
    requires blank { Blank table.old × Standing code.now.script.bytes.now block.old }
    requires choices_len_bound { length choices.now ≤ CHOICES }
    requires config_value { (x : Standing code.now.script.bytes.now block.old) → seen (code_of code.now.script.bytes.now) limits x.config ≡ none }
    ensures ran_as { (x : Standing code.now.script.bytes.now block.old) →
        RanAs (report (code_of code.now.script.bytes.now) limits x.config choices.now) block.new result }
    ensures read_in_bounds { (result.read ≤ length choices.now) × (result.moves ≤ result.read) }
{
    let mut moves: usize = 0;
    for (read, choice) in choices.iter().enumerate() {
        let n = usize::from(*choice);
        let taken = take_choice(code, table, block, n);
        moves += taken.made;
        if let Some(stop) = taken.next {
            return Ran {
                stop,
                read: read + 1,
                moves,
            };
        }
    }
    Ran {
        stop: Stop::Spent,
        read: choices.len(),
        moves,
    }
}

// Run: the stop, "choices read and moves made".
pub fn run_choices(
    code: &Code,
    table: &mut [u16],
    block: &mut [u8; Limits::BLOCK],
    choices: &[u8],
) -> Ran
    requires blank { Blank table.old × Standing code.now.script.bytes.now block.old }
    requires choices_len_bound { length choices.now ≤ CHOICES }
    ensures ran_as { (x : Standing code.now.script.bytes.now block.old) →
        RanAs (report (code_of code.now.script.bytes.now) limits x.config choices.now) block.new result }
    ensures read_in_bounds { (result.read ≤ length choices.now) × (result.moves ≤ result.read) }
{
    if let Some(e) = look(code.script.bytes, block, 0) {
        return Ran {
            stop: Stop::Ended(e),
            read: 0,
            moves: 0,
        };
    }
    follow(code, table, block, choices)
}
