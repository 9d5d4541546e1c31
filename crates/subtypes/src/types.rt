// What type numbers stand for: the script alone tells it, so that no table of starts is asked.
ghost use Rattle.std.specs.Prelude.{◌≡◌, ◌+◌, ◌<◌};
ghost use Rattle.limits.specs.Limits.{INTERFACES, CLASSES};
ghost use Rattle.script.specs.Syntax.{int_of};
ghost use Rattle.script.specs.Reading.{program_of};
ghost use Rattle.script.specs.Statements.{WithinLayout};
ghost use Rattle.subtypes.specs.Subtypes.{DeclaredAs};

use crate::Declared;
use script::Section;
use sections::count_of;

// What the type number t is declared as.
pub fn declared_as(s: &[u8], t: u16) -> Declared
    requires { WithinLayout s.now }
    ensures { DeclaredAs s.now t result }
{
    if t == 0 {
        return Declared::Neither;
    }
    let i = t as usize - 1;
    let interfaces = count_of(s, Section::Interfaces);
    if i < interfaces {
        return Declared::Interface(i);
    }
    let c = i - interfaces;
    let classes = count_of(s, Section::Classes);
    if c < classes {
        return Declared::Class(c);
    }
    Declared::Neither
}

// The type number of Int, the one after the last class's.
pub fn int_of(s: &[u8]) -> u16
    requires { WithinLayout s.now }
    ensures { (result ≡ int_of (program_of s.now)) × (result < INTERFACES + CLASSES + 2) }
{
    let interfaces = count_of(s, Section::Interfaces);
    let classes = count_of(s, Section::Classes);
    (interfaces + classes + 1) as u16
}
