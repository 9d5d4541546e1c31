// What a waiting node waits for and gives: a write, a call or a let.
#![tactic(auto)]

ghost use Rattle.std.specs.Prelude.{◌≡◌, Some};
ghost use Rattle.script.specs.declared.Kind.TheVariants.{Update as update_kind, Call as call_kind, Let as bind_kind};
ghost use Rattle.script.specs.Section.{node_word};
ghost use Rattle.script.specs.Reading.{kind_of};
ghost use Rattle.members.specs.Code.{Blank};
ghost use Rattle.machine.specs.Config.{code_of};
ghost use Rattle.environments.specs.Known.{ScopedNode};
ghost use Rattle.awaited.specs.Awaited.{ScopedBlock, NodeUnder, expects_of, wants_of, given_test, waits_by, GivesSmall, WaitsAs};

use inference::Given;
use limits::Limits;
use machine::Want;
use members::Code;
use sections::node_word;
use subtypes::Script;
use typing::Fault;
use values::{meets, null_meets};

// The type of the value that a frame waits for, and of the one that it then gives; or the first alone, where what it gives ends in null.
#[derive(Clone, Copy)]
pub enum Waits {
    For(u16, u16),
    ForNull(u16),
}

// What is expected above a frame that waits so: a value of the type that it waits for, if what it then gives meets `want`; and nothing where it waits for
// none.
pub fn expected(script: &Script, w: Option<Waits>, want: Want) -> Option<Want>
    ensures { result ≡ expects_of (wants_of (code_of script.now.bytes.now) want w) }
{
    match w {
        Some(Waits::For(t, u)) if meets(script, u, want) => Some(Want::Upto(t)),
        Some(Waits::ForNull(t)) if null_meets(script.bytes, want) => Some(Want::Upto(t)),
        _ => None,
    }
}

// Does what a node gives meet `want`? A null meets all but Int.
pub fn given_meets(script: &Script, r: Result<Given, Fault>, want: Want) -> bool
    ensures { result ≡ given_test (code_of script.now.bytes.now) r want }
{
    match r {
        Ok(Given::Typed(t, _)) => meets(script, t, want),
        Ok(Given::Null(_)) => null_meets(script.bytes, want),
        Err(_) => false,
    }
}

// What a let waits for whose first part has type t, by what the whole let gives.
fn waits_by(t: u16, g: Given) -> Waits
    ensures { result ≡ waits_by t g }
{
    match g {
        Given::Typed(u, _) => Waits::For(t, u),
        Given::Null(_) => Waits::ForNull(t),
    }
}

// A write waits for a value of its field's type, and gives Unit.
pub fn write_waits(script: &Script, block: &[u8; Limits::BLOCK], n: u16, e: u16) -> Option<Waits>
    requires { ScopedNode script.now.bytes.now block.now e n × (kind_of (node_word script.now.bytes.now n 0) ≡ update_kind) }
    ensures { WaitsAs script.now.bytes.now block.now n e result }
{
    let c = environments::variable_type(block, e, node_word(script.bytes, n, 1))?;
    let t = members::field_type(script, c, node_word(script.bytes, n, 2))?;
    Some(Waits::For(t, 0))
}

// A call waits for a value of its method's parameter type, and gives one of the result type.
pub fn call_waits(script: &Script, block: &[u8; Limits::BLOCK], n: u16, e: u16) -> Option<Waits>
    requires { ScopedNode script.now.bytes.now block.now e n × (kind_of (node_word script.now.bytes.now n 0) ≡ call_kind) }
    ensures { WaitsAs script.now.bytes.now block.now n e result }
{
    let c = environments::variable_type(block, e, node_word(script.bytes, n, 1))?;
    let types = members::method_of(script, c, node_word(script.bytes, n, 2))?;
    Some(Waits::For(types.param, types.result))
}

// "what a let frame waits for fits the type inferred for the let's first part under the frame's bindings (there must be one)"; it gives what the whole let
// does. Where the whole let gets no no, its first part has a type.
pub fn let_waits(
    code: &Code,
    table: &mut [u16],
    block: &[u8; Limits::BLOCK],
    n: u16,
    e: u16,
) -> Option<Waits>
    requires blank { Blank table.old }
    requires scoped_block { ScopedBlock code.now.script.bytes.now block.now }
    requires node_under { NodeUnder code.now.script.bytes.now block.now n e × (kind_of (node_word code.now.script.bytes.now n 0) ≡ bind_kind) }
    ensures waits_as { WaitsAs code.now.script.bytes.now block.now n e result × GivesSmall result }
    ensures table_unchanged { table.new ≡ table.old }
{
    let g = environments::infer_under(code, table, block, e, n).ok()?;
    let a = node_word(code.script.bytes, n, 2);
    let t = environments::first_type(code, table, block, e, a).ok()?;
    Some(waits_by(t, g))
}
