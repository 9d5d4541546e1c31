// The type of a node that has one, where its kind and its own words tell it: its parts are not walked.
ghost use Rattle.std.specs.Prelude.{◌≡◌, ◌<◌};
ghost use Rattle.script.specs.declared.Kind.TheVariants.{Select as select_kind, Call as call_kind};
ghost use Rattle.script.specs.declared.Section.TheVariants.{Nodes as nodes};
ghost use Rattle.script.specs.Section.{count_of, node_word};
ghost use Rattle.script.specs.Reading.{kind_of, program_of, expr_at};
ghost use Rattle.typing.specs.Published.{WfEnv};
ghost use Rattle.typing.specs.Typing.{inferred};
ghost use Rattle.members.specs.Code.{Blank};
ghost use Rattle.machine.specs.Machine.{context};
ghost use Rattle.environments.specs.Chains.{Chain, Typed, bindings_in};
ghost use Rattle.environments.specs.Known.{ScopedNode, Inferable, Tells};

use crate::infer_under;
use crate::scopes::variable_type;
use inference::answer_of;
use limits::Limits;
use members::Code;
use script::Kind;
use sections::{kind_at, node_word};
use subtypes::Script;
use typing::Fault;

// The type of a read: the one of its field.
fn read_type(script: &Script, block: &[u8; Limits::BLOCK], env: u16, a: u16) -> Option<u16>
    requires { ScopedNode script.now.bytes.now block.now env a × (kind_of (node_word script.now.bytes.now a 0) ≡ select_kind) }
    ensures { Tells script.now.bytes.now block.now env a result }
{
    let c = variable_type(block, env, node_word(script.bytes, a, 1))?;
    members::field_type(script, c, node_word(script.bytes, a, 2))
}

// The type of a call that has one: the result type of its method.
fn call_type(script: &Script, block: &[u8; Limits::BLOCK], env: u16, a: u16) -> Option<u16>
    requires { ScopedNode script.now.bytes.now block.now env a × (kind_of (node_word script.now.bytes.now a 0) ≡ call_kind) ×
        Inferable script.now.bytes.now block.now env a }
    ensures { Tells script.now.bytes.now block.now env a result }
{
    let c = variable_type(block, env, node_word(script.bytes, a, 1))?;
    let types = members::method_of(script, c, node_word(script.bytes, a, 2))?;
    Some(types.result)
}

// The type of a node that has one, where its kind tells it: of a let, a fork and a lock nothing is told.
fn known_type(script: &Script, block: &[u8; Limits::BLOCK], env: u16, a: u16) -> Option<u16>
    requires { ScopedNode script.now.bytes.now block.now env a × Inferable script.now.bytes.now block.now env a }
    ensures { Tells script.now.bytes.now block.now env a result }
{
    let w = node_word(script.bytes, a, 1);
    match kind_at(script.bytes, a) {
        Kind::Variable => variable_type(block, env, w),
        Kind::Select => read_type(script, block, env, a),
        Kind::Update => Some(0),
        Kind::Call => call_type(script, block, env, a),
        Kind::New | Kind::Cast => Some(w),
        Kind::Constant | Kind::Sum => Some(script.int_of()),
        _ => None,
    }
}

// The type of node a, which has one, under the bindings of an environment: what `infer_under` gives, and only for a let, a fork and a lock is it asked.
pub fn first_type(
    code: &Code,
    table: &mut [u16],
    block: &[u8; Limits::BLOCK],
    env: u16,
    a: u16,
) -> Result<u16, Fault>
    requires blank { Blank table.old × (a < count_of code.now.script.bytes.now nodes) }
    requires chain { Chain block.now env × Typed block.now × WfEnv (program_of code.now.script.bytes.now) (context (bindings_in block.now) env) }
    requires inferable { Inferable code.now.script.bytes.now block.now env a }
    ensures value { result ≡ inferred (program_of code.now.script.bytes.now) (context (bindings_in block.now) env) (expr_at code.now.script.bytes.now a) }
    ensures table_unchanged { table.new ≡ table.old }
{
    if let Some(t) = known_type(&code.script, block, env, a) {
        return Ok(t);
    }
    answer_of(infer_under(code, table, block, env, a))
}
