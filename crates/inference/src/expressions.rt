// The walk over an expression: its type, or the question that gets a no and the node.
ghost use Rattle.std.specs.Prelude.{◌≡◌, ◌+◌};
ghost use Rattle.script.specs.Section.{node_word};
ghost use Rattle.script.specs.Syntax.{var, select, add};
ghost use Rattle.script.specs.declared.Kind.TheVariants.{Update as update_kind, Call as call_kind, Let as bind_kind};
ghost use Rattle.script.specs.declared.Kind.TheVariants.{Cast as cast_kind, Fork as fork_kind, Lock as lock_kind};
ghost use Rattle.script.specs.Reading.{kind_of, program_of, expr_at};
ghost use Rattle.typing.specs.Typing.{fits};
ghost use Rattle.typing.specs.declared.Aim.TheVariants.{Checks as checks};
ghost use Rattle.inference.specs.Walk.{Target, NodeInEnv, Inferred, Checked, Lockable};
ghost use Rattle.inference.specs.Given.{inferred_as, answer_as, given_by, GivenAs};

use crate::Given;
use members::{Code, field_type, method_of};
use script::{Kind, Question};
use sections::{kind_at, node_word};
use subtypes::Script;
use typing::Fault;

// "Is each inferred type below the wanted one?" Where it is not, question 14 gets a no at node n.
fn fits(yes: bool, n: u16, t: u16) -> Result<u16, Fault>
    ensures { result ≡ fits yes n t }
{
    if yes {
        return Ok(t);
    }
    Err(Fault {
        question: Question::Fits,
        node: n,
    })
}

// What is inferred for an expression that gives this, or gets a no. 12. "Is no null inferred?"
pub fn answer_of(given: Result<Given, Fault>) -> Result<u16, Fault>
    ensures { result ≡ inferred_as given }
{
    match given? {
        Given::Typed(t, _) => Ok(t),
        Given::Null(node) => Err(Fault {
            question: Question::Nulls,
            node,
        }),
    }
}

// What node n gives by what is inferred for it, where it has no last part.
fn given_by(n: u16, r: Result<u16, Fault>) -> Result<Given, Fault>
    ensures { result ≡ given_by n r }
{
    Ok(Given::Typed(r?, n))
}

// The type of the variable that node n names at place j.
fn infer_var(code: &Code, env: &[u16], n: u16, j: usize) -> Result<u16, Fault>
    requires { Target code.now.script.bytes.now env.now n j }
    ensures { Inferred code.now.script.bytes.now code.now.facts.now env.now
        (var n (node_word code.now.script.bytes.now n (1 + j))) result }
{
    let rank = code.facts[2 * n as usize + j] as usize;
    let word = env[rank];
    if word == 0 {
        return Err(Fault {
            question: Question::Variables,
            node: n,
        });
    }
    Ok(word - 1)
}

// The type of the field that node n reads or writes.
fn infer_select(code: &Code, env: &[u16], n: u16) -> Result<u16, Fault>
    requires { Target code.now.script.bytes.now env.now n 0 }
    ensures { Inferred code.now.script.bytes.now code.now.facts.now env.now
        (select n (node_word code.now.script.bytes.now n 1) (node_word code.now.script.bytes.now n 2)) result }
{
    let t = infer_var(code, env, n, 0)?;
    let f = node_word(code.script.bytes, n, 2);
    field_type(&code.script, t, f).ok_or(Fault {
        question: Question::Members,
        node: n,
    })
}

// A sum has type Int, where both its variables have a type and then both have this one.
fn infer_add(code: &Code, env: &[u16], n: u16) -> Result<u16, Fault>
    requires { Target code.now.script.bytes.now env.now n 0 × Target code.now.script.bytes.now env.now n 1 }
    ensures { Inferred code.now.script.bytes.now code.now.facts.now env.now
        (add n (node_word code.now.script.bytes.now n 1) (node_word code.now.script.bytes.now n 2)) result }
{
    let t = infer_var(code, env, n, 0)?;
    let u = infer_var(code, env, n, 1)?;
    let int = code.script.int_of();
    fits(t == int && u == int, n, int)
}

// The type of the variable that node n locks, which may be any but Int.
fn lock_target(code: &Code, env: &[u16], n: u16) -> Result<u16, Fault>
    requires { Target code.now.script.bytes.now env.now n 0 }
    ensures { Lockable code.now.script.bytes.now code.now.facts.now env.now n (node_word code.now.script.bytes.now n 1) result }
{
    let t = infer_var(code, env, n, 0)?;
    let int = code.script.int_of();
    if t == int {
        return Err(Fault {
            question: Question::Members,
            node: n,
        });
    }
    Ok(t)
}

// A write has type Unit, after its value is checked against the field's type.
#[cycle(walk)]
fn infer_update(code: &Code, env: &mut [u16], n: u16) -> Result<u16, Fault>
    requires { NodeInEnv code.now.script.bytes.now code.now.facts.now env.old n × (kind_of (node_word code.now.script.bytes.now n 0) ≡ update_kind) }
    ensures inferred { Inferred code.now.script.bytes.now code.now.facts.now env.old (expr_at code.now.script.bytes.now n) result }
    ensures env_unchanged { env.new ≡ env.old }
{
    let t = infer_select(code, env, n)?;
    let value = node_word(code.script.bytes, n, 3);
    check_part(code, env, value, t)?;
    Ok(0)
}

// A call has the method's result type, after its argument is checked against the parameter's type.
#[cycle(walk)]
fn infer_call(code: &Code, env: &mut [u16], n: u16) -> Result<u16, Fault>
    requires { NodeInEnv code.now.script.bytes.now code.now.facts.now env.old n × (kind_of (node_word code.now.script.bytes.now n 0) ≡ call_kind) }
    ensures inferred { Inferred code.now.script.bytes.now code.now.facts.now env.old (expr_at code.now.script.bytes.now n) result }
    ensures env_unchanged { env.new ≡ env.old }
{
    let t = infer_var(code, env, n, 0)?;
    let m = node_word(code.script.bytes, n, 2);
    let types = method_of(&code.script, t, m).ok_or(Fault {
        question: Question::Members,
        node: n,
    })?;
    let argument = node_word(code.script.bytes, n, 3);
    check_part(code, env, argument, types.param)?;
    Ok(types.result)
}

// A let gives what its last part does, in which its variable has the type of the first; the variable's old word is put back.
#[cycle(walk)]
fn infer_let(code: &Code, env: &mut [u16], n: u16) -> Result<Given, Fault>
    requires { NodeInEnv code.now.script.bytes.now code.now.facts.now env.old n × (kind_of (node_word code.now.script.bytes.now n 0) ≡ bind_kind) }
    ensures given_as { GivenAs code.now.script.bytes.now code.now.facts.now env.old (expr_at code.now.script.bytes.now n) result }
    ensures env_unchanged { env.new ≡ env.old }
{
    let value = node_word(code.script.bytes, n, 2);
    let t = infer_type(code, env, value)?;
    let rank = code.facts[2 * n as usize] as usize;
    let outer = env[rank];
    env[rank] = t + 1;
    let body = node_word(code.script.bytes, n, 3);
    let last = infer(code, env, body);
    env[rank] = outer;
    last
}

// A cast has its type, after its operand is checked against it.
#[cycle(walk)]
fn infer_cast(code: &Code, env: &mut [u16], n: u16) -> Result<u16, Fault>
    requires { NodeInEnv code.now.script.bytes.now code.now.facts.now env.old n × (kind_of (node_word code.now.script.bytes.now n 0) ≡ cast_kind) }
    ensures inferred { Inferred code.now.script.bytes.now code.now.facts.now env.old (expr_at code.now.script.bytes.now n) result }
    ensures env_unchanged { env.new ≡ env.old }
{
    let t = node_word(code.script.bytes, n, 1);
    let operand = node_word(code.script.bytes, n, 2);
    check_part(code, env, operand, t)
}

// A fork gives what its last part does, where its asyncs share no variable and have types.
#[cycle(walk)]
fn infer_fork(code: &Code, env: &mut [u16], n: u16) -> Result<Given, Fault>
    requires { NodeInEnv code.now.script.bytes.now code.now.facts.now env.old n × (kind_of (node_word code.now.script.bytes.now n 0) ≡ fork_kind) }
    ensures given_as { GivenAs code.now.script.bytes.now code.now.facts.now env.old (expr_at code.now.script.bytes.now n) result }
    ensures env_unchanged { env.new ≡ env.old }
{
    if code.facts[2 * n as usize] == 1 {
        return Err(Fault {
            question: Question::Sharing,
            node: n,
        });
    }
    let a = node_word(code.script.bytes, n, 1);
    infer_type(code, env, a)?;
    let b = node_word(code.script.bytes, n, 2);
    infer_type(code, env, b)?;
    let c = node_word(code.script.bytes, n, 3);
    infer(code, env, c)
}

// A lock gives what its part does, where its variable has a type that may be locked.
#[cycle(walk)]
fn infer_lock(code: &Code, env: &mut [u16], n: u16) -> Result<Given, Fault>
    requires { NodeInEnv code.now.script.bytes.now code.now.facts.now env.old n × (kind_of (node_word code.now.script.bytes.now n 0) ≡ lock_kind) }
    ensures given_as { GivenAs code.now.script.bytes.now code.now.facts.now env.old (expr_at code.now.script.bytes.now n) result }
    ensures env_unchanged { env.new ≡ env.old }
{
    lock_target(code, env, n)?;
    let part = node_word(code.script.bytes, n, 2);
    infer(code, env, part)
}

// What node n gives.
#[cycle(walk)]
pub fn infer(code: &Code, env: &mut [u16], n: u16) -> Result<Given, Fault>
    requires { NodeInEnv code.now.script.bytes.now code.now.facts.now env.old n }
    ensures given_as { GivenAs code.now.script.bytes.now code.now.facts.now env.old (expr_at code.now.script.bytes.now n) result }
    ensures env_unchanged { env.new ≡ env.old }
{
    match kind_at(code.script.bytes, n) {
        Kind::Variable => given_by(n, infer_var(code, env, n, 0)),
        Kind::Select => given_by(n, infer_select(code, env, n)),
        Kind::Update => given_by(n, infer_update(code, env, n)),
        Kind::Call => given_by(n, infer_call(code, env, n)),
        Kind::Let => infer_let(code, env, n),
        Kind::New => Ok(Given::Typed(node_word(code.script.bytes, n, 1), n)),
        Kind::Cast => given_by(n, infer_cast(code, env, n)),
        Kind::Fork => infer_fork(code, env, n),
        Kind::Lock => infer_lock(code, env, n),
        Kind::Constant => Ok(Given::Typed(code.script.int_of(), n)),
        Kind::Sum => given_by(n, infer_add(code, env, n)),
        Kind::Null | Kind::Unknown => Ok(Given::Null(n)),
    }
}

// The type that is inferred for node n, which a null has not.
#[cycle(walk)]
pub fn infer_type(code: &Code, env: &mut [u16], n: u16) -> Result<u16, Fault>
    requires { NodeInEnv code.now.script.bytes.now code.now.facts.now env.old n }
    ensures inferred { Inferred code.now.script.bytes.now code.now.facts.now env.old (expr_at code.now.script.bytes.now n) result }
    ensures env_unchanged { env.new ≡ env.old }
{
    answer_of(infer(code, env, n))
}

// Has an expression that gives this the type t? A null has every type but Int, and so has what ends in one; any other has the types that its own is below. Both
// are asked of its innermost last part.
fn given_fits(script: &Script, g: Given, t: u16) -> Result<u16, Fault>
    ensures { result ≡ answer_as (program_of script.now.bytes.now) (checks t) g }
{
    match g {
        Given::Typed(u, last) => fits(script.is_below(u, t), last, t),
        Given::Null(last) => fits(t != script.int_of(), last, t),
    }
}

// Has node n the type t?
#[cycle(walk)]
pub fn check(code: &Code, env: &mut [u16], n: u16, t: u16) -> Result<u16, Fault>
    requires { NodeInEnv code.now.script.bytes.now code.now.facts.now env.old n }
    ensures checked { Checked code.now.script.bytes.now code.now.facts.now env.old (expr_at code.now.script.bytes.now n) t result }
    ensures env_unchanged { env.new ≡ env.old }
{
    given_fits(&code.script, infer(code, env, n)?, t)
}

// The same of a node's part, which is most often a variable: its type is at hand, and no call is made for it.
#[cycle(walk)]
fn check_part(code: &Code, env: &mut [u16], n: u16, t: u16) -> Result<u16, Fault>
    requires { NodeInEnv code.now.script.bytes.now code.now.facts.now env.old n }
    ensures checked { Checked code.now.script.bytes.now code.now.facts.now env.old (expr_at code.now.script.bytes.now n) t result }
    ensures env_unchanged { env.new ≡ env.old }
{
    let Kind::Variable = kind_at(code.script.bytes, n) else {
        return check(code, env, n, t);
    };
    let u = infer_var(code, env, n, 0)?;
    given_fits(&code.script, Given::Typed(u, n), t)
}
