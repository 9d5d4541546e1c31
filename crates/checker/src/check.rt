// Check: questions 1 to 15, in order.
ghost use Rattle.std.specs.Prelude.{◌≡◌};
ghost use Rattle.script.specs.Asking.{at_zero};
ghost use Rattle.script.specs.Statements.{WithinLayout};
ghost use Rattle.sections.specs.Laid.{Laid, passed_of};
ghost use Rattle.typing.specs.Check.{check_of, walked};
ghost use Rattle.names.specs.Facts.{Facts};
ghost use Rattle.checker.specs.Stages.{asked, NodeThere, walk_stage, member_stage, record_stage};
ghost use Rattle.checker.specs.Lent.{FactsLent, TablesLent, TablesFilled};

use inference::walk_script;
use interfaces::{check_classes, check_joins};
use members::{Code, fill_starts};
use names::{RANKS, fill_ranks};
use records::{check_interfaces, check_names, check_nodes, check_types};
use script::{Question, Refusal, Section};
use sections::File;
use sharing::fill_forks;
use subtypes::Script;
use typing::Fault;

// The question gets a no at the place where it did not pass.
fn ask(question: Question, passed: Result<(), u16>) -> Result<(), Refusal>
    ensures { result ≡ asked question passed }
{
    match passed {
        Ok(()) => Ok(()),
        Err(place) => Err(Refusal { question, place }),
    }
}

// "0 for questions 1 to 3, 5"
fn at_zero(yes: bool) -> Result<(), u16>
    ensures { result ≡ passed_of (at_zero yes) }
{
    if yes { Ok(()) } else { Err(0) }
}

// The walk's answer, with the node's record as the place.
fn placed(file: &File, answer: Result<u16, Fault>) -> Result<u16, Refusal>
    requires { NodeThere file.now.bytes.now answer }
    ensures { result ≡ walked file.now.bytes.now answer }
{
    match answer {
        Ok(t) => Ok(t),
        Err(fault) => Err(Refusal {
            question: fault.question,
            place: file.record_at(Section::Nodes, fault.node as usize) as u16,
        }),
    }
}

// 11 to 15, after which the table of facts is filled.
fn walk_verdict(script: Script, facts: &mut [u16]) -> Result<u16, Refusal>
    requires { FactsLent facts.old }
    ensures value { result ≡ walk_stage script.entry.bytes.now }
    ensures facts { Facts script.entry.bytes.now facts.new }
{
    let s = script.bytes;
    let count = fill_ranks(&script, facts);
    fill_forks(&script, count, facts);
    let mut env = [0u16; RANKS];
    let answer = walk_script(&Code { script, facts }, &mut env);
    placed(&File { bytes: s }, answer)
}

// The bytes become a Script here, as soon as their runs are filled in.
// 9 to 15.
fn member_verdict(s: &[u8], starts: &mut [u16], facts: &mut [u16]) -> Result<u16, Refusal>
    requires { WithinLayout s.now × TablesLent starts.old facts.old }
    ensures value { result ≡ member_stage s.now }
    ensures tables_filled { TablesFilled s.now starts.new facts.new result }
{
    fill_starts(s, starts);
    let script = Script { bytes: s, starts };
    ask(Question::Joins, check_joins(&script))?;
    ask(Question::Classes, check_classes(&script))?;
    walk_verdict(script, facts)
}

// 4 to 15.
fn record_verdict(file: &File, starts: &mut [u16], facts: &mut [u16]) -> Result<u16, Refusal>
    requires { TablesLent starts.old facts.old }
    ensures value { result ≡ record_stage file.now.bytes.now }
    ensures tables_filled { TablesFilled file.now.bytes.now starts.new facts.new result }
{
    ask(Question::Interfaces, check_interfaces(file))?;
    ask(Question::Owners, at_zero(sections::owners_fit(file)))?;
    ask(Question::Types, check_types(file))?;
    ask(Question::Nodes, check_nodes(file))?;
    ask(Question::Names, check_names(file))?;
    member_verdict(file.bytes, starts, facts)
}

// Check: 1 to 15. The tables are lent, and are filled for an accepted script.
pub fn verdict_of(s: &[u8], starts: &mut [u16], facts: &mut [u16]) -> Result<u16, Refusal>
    requires { TablesLent starts.old facts.old }
    ensures value { result ≡ check_of s.now }
    ensures tables_filled { TablesFilled s.now starts.new facts.new result }
{
    ask(Question::Length, at_zero(sections::length_fits(s)))?;
    ask(Question::Counts, at_zero(sections::counts_fit(s)))?;
    ask(Question::Places, at_zero(sections::places_fit(s)))?;
    record_verdict(&File { bytes: s }, starts, facts)
}
