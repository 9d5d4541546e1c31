// Environments: the chains of bindings in a lent block.
#![tactic(auto)]

mod known;
mod scopes;

ghost use Rattle.std.specs.Prelude.{◌≡◌, ◌+◌, ◌<◌, length};
ghost use Rattle.words.specs.Word.{WORD};
ghost use Rattle.script.specs.declared.Section.TheVariants.{Nodes as nodes};
ghost use Rattle.script.specs.Section.{count_of};
ghost use Rattle.script.specs.Reading.{program_of, expr_at};
ghost use Rattle.script.specs.Statements.{WithinLayout};
ghost use Rattle.slices.specs.Zero.{AllZero};
ghost use Rattle.typing.specs.Published.{WfEnv};
ghost use Rattle.names.specs.Ranks.{RANKS};
ghost use Rattle.names.specs.Facts.{Facts};
ghost use Rattle.members.specs.Code.{Blank};
ghost use Rattle.inference.specs.Given.{GivenIn};
ghost use Rattle.machine.specs.Machine.{context};
ghost use Rattle.environments.specs.Chains.{Chain, Typed, bindings_in, Filled, TypeStored};

use block::{Area, Layout};
use inference::Given;
pub use known::first_type;
use limits::Limits;
use members::Code;
pub use scopes::{same_scope, variable, variable_type};
use typing::Fault;

// Stores the type of a variable in a table at the variable's rank, where none is stored yet. A variable that no node names has no rank.
fn store_type(s: &[u8], facts: &[u16], table: &mut [u16], name: u16, t: u16)
    requires { WithinLayout s.now × Facts s.now facts.now × (length table.old ≡ RANKS) × (t + 1 < WORD) }
    ensures { TypeStored s.now facts.now table.old name t table.new }
{
    let Some(rank) = names::rank_of(s, facts, name) else {
        return;
    };
    let i = rank as usize;
    if table[i] == 0 {
        table[i] = t + 1;
    }
}

// A link tells the next binding, so there is no range for a `for` to go through.
// Stores the types of an environment's variables in a table of zeros: the nearest binding counts. It takes no Code, since it needs no table of starts.
pub fn fill(s: &[u8], facts: &[u16], table: &mut [u16], block: &[u8; Limits::BLOCK], env: u16)
    requires within_layout { WithinLayout s.now × Facts s.now facts.now × (length table.old ≡ RANKS) × AllZero table.old }
    requires chain { Chain block.now env × Typed block.now }
    ensures filled { Filled s.now facts.now table.new (context (bindings_in block.now) env) }
    ensures table_len_unchanged { length table.new ≡ length table.old }
{
    let mut e = env as usize;
    while 0 < e {
        let name = areas::word(block, Area::Bindings, e - 1, Layout::NAME);
        let t = areas::word(block, Area::Bindings, e - 1, Layout::TYPE);
        store_type(s, facts, table, name, t);
        e = areas::word(block, Area::Bindings, e - 1, Layout::LINK) as usize;
    }
}

// Makes every word of a table 0.
pub fn empty(table: &mut [u16])
    ensures all_zero { AllZero table.new }
    ensures table_len_unchanged { length table.new ≡ length table.old }
{
    table.fill(0);
}

// What node a gives under the bindings of an environment. The table of zeros is lent for their types, and is zeros again.
pub fn infer_under(
    code: &Code,
    table: &mut [u16],
    block: &[u8; Limits::BLOCK],
    env: u16,
    a: u16,
) -> Result<Given, Fault>
    requires blank { Blank table.old × (a < count_of code.now.script.bytes.now nodes) }
    requires chain { Chain block.now env × Typed block.now × WfEnv (program_of code.now.script.bytes.now) (context (bindings_in block.now) env) }
    ensures given_in { GivenIn (program_of code.now.script.bytes.now) (context (bindings_in block.now) env) (expr_at code.now.script.bytes.now a) result }
    ensures table_unchanged { table.new ≡ table.old }
{
    fill(code.script.bytes, code.facts, table, block, env);
    let r = inference::infer(code, table, a);
    empty(table);
    r
}
