// The walk over a whole script: every body in method order, then the start.
ghost use Rattle.std.specs.Prelude.{◌≡◌, ◌+◌, ◌<◌};
ghost use Rattle.script.specs.declared.Section.TheVariants.{Interfaces as interfaces, Classes as classes, Methods as methods};
ghost use Rattle.script.specs.Section.{count_of};
ghost use Rattle.script.specs.Reading.{method_at, class_at, program_of};
ghost use Rattle.script.specs.Regular.{IsType};
ghost use Rattle.typing.specs.Typing.{bodies_of, walk};
ghost use Rattle.members.specs.Code.{Blank};
ghost use Rattle.inference.specs.Walk.{bodies_in, body_answer, WalksAs};

use crate::expressions::{check, infer_type};
use members::Code;
use script::Section;
use sections::{count_of, own_count, record_word};
use typing::Fault;

// Checks the body of method m of the class against its result type; both variables are unbound again after it.
fn walk_method(code: &Code, env: &mut [u16], class: u16, m: usize) -> Result<u16, Fault>
    requires { Blank env.old × IsType (program_of code.now.script.bytes.now) class × (m < count_of code.now.script.bytes.now methods) }
    ensures value { result ≡ body_answer (program_of code.now.script.bytes.now) class (method_at code.now.script.bytes.now m) }
    ensures env_unchanged { env.new ≡ env.old }
{
    let s = code.script.bytes;
    let param = record_word(s, Section::Methods, m, 1);
    let result = record_word(s, Section::Methods, m, 2);
    let body = record_word(s, Section::Methods, m, 3);
    env[0] = class + 1;
    env[1] = param + 1;
    let r = check(code, env, body, result);
    env[1] = 0;
    env[0] = 0;
    r
}

// Checks the bodies of class c, in order.
fn walk_class(code: &Code, env: &mut [u16], c: usize) -> Result<u16, Fault>
    requires { Blank env.old × (c < count_of code.now.script.bytes.now classes) }
    ensures walks_as { WalksAs code.now.script.bytes.now
        (bodies_in (count_of code.now.script.bytes.now interfaces + 1 + c) (class_at code.now.script.bytes.now c).methods) result }
    ensures env_unchanged { env.new ≡ env.old }
{
    let s = code.script.bytes;
    let class = (count_of(s, Section::Interfaces) + 1 + c) as u16;
    let first = code.script.first_of(Section::Methods, c);
    let end = first + own_count(s, Section::Methods, c);
    for m in first..end {
        walk_method(code, env, class, m)?;
    }
    Ok(0)
}

// Every body in method order, then the start, with no variable.
pub fn walk_script(code: &Code, env: &mut [u16]) -> Result<u16, Fault>
    requires { Blank env.old }
    ensures { result ≡ walk (program_of code.now.script.bytes.now) (bodies_of (program_of code.now.script.bytes.now)) }
{
    let count = count_of(code.script.bytes, Section::Classes);
    for c in 0..count {
        walk_class(code, env, c)?;
    }
    infer_type(code, env, 0)
}
