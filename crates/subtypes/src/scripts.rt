// A script within layout and limits, with the table of its starts: where runs begin, and the subtype question.
ghost use Rattle.script.specs.Statements.{WithinLayout};
ghost use Rattle.subtypes.specs.Tables.{Starts};
ghost use Rattle.subtypes.specs.Layouts.{WithinLayout-prop};

use crate::rows::has_bit;
use crate::{Declared, types};
use limits::Limits;
use script::Section;
use sections::record_word;

// The bytes of a script that is within layout and limits, and where the runs of its owners begin, with what each interface is at or below.
#[derive(Clone, Copy)]
pub struct Script<'a> {
    pub bytes: &'a [u8],
    pub starts: &'a [u16],
    pub ghost within_layout: { WithinLayout bytes.now } by { WithinLayout-prop bytes.now },
    pub ghost starts_are: { Starts bytes.now starts.now },
}

impl Script<'_> {
    ghost use Rattle.std.specs.Prelude.{◌≡◌, suc, ◌+◌, ◌<◌};
    ghost use Rattle.limits.specs.Limits.{INTERFACES, CLASSES};
    ghost use Rattle.script.specs.declared.Section.TheVariants.{Interfaces as interfaces};
    ghost use Rattle.script.specs.Lists.{sum_below};
    ghost use Rattle.script.specs.Section.{count_of};
    ghost use Rattle.sections.specs.Laid.{owner_of, own_of};
    ghost use Rattle.script.specs.Syntax.{int_of};
    ghost use Rattle.script.specs.Reading.{program_of};
    ghost use Rattle.typing.specs.Members.{reach, below};
    ghost use Rattle.subtypes.specs.Subtypes.{DeclaredAs};

    // What the type number t is declared as.
    pub fn declared_as(&self, t: u16) -> Declared
        ensures { DeclaredAs self.now.bytes.now t result }
    {
        types::declared_as(self.bytes, t)
    }

    // The type number of Int, the one after the last class's.
    pub fn int_of(&self) -> u16
        ensures { (result ≡ int_of (program_of self.now.bytes.now)) × (result < INTERFACES + CLASSES + 2) }
    {
        types::int_of(self.bytes)
    }

    // Where the run of owner o begins in section k: how many records of it belong to earlier owners. Interfaces, classes and nodes belong to none.
    pub fn first_of(&self, k: Section, o: usize) -> usize
        requires { o < count_of self.now.bytes.now (owner_of k) }
        ensures { result ≡ sum_below (own_of self.now.bytes.now k) o }
    {
        match k {
            Section::Signatures => self.starts[o] as usize,
            Section::Fields => self.starts[Limits::INTERFACES + o] as usize,
            Section::Methods => self.starts[Limits::INTERFACES + Limits::CLASSES + o] as usize,
            _ => 0,
        }
    }

    // Is the interface of record i at or below the type u? No interface is below a type that is none.
    fn leads(&self, i: usize, u: u16) -> bool
        requires { i < count_of self.now.bytes.now interfaces }
        ensures { result ≡ reach (program_of self.now.bytes.now) (suc i) u }
    {
        // Any other word than an interface's number, of a damaged block too, is answered before it would be cut to a byte.
        if u as usize > Limits::INTERFACES {
            return false;
        }
        let goal = u as u8;
        if goal == 0 {
            return false;
        }
        has_bit(self.starts, i, goal as usize - 1)
    }

    // Is the type t below the type u?
    pub fn is_below(&self, t: u16, u: u16) -> bool
        ensures { result ≡ below (program_of self.now.bytes.now) t u }
    {
        if t == u {
            return true;
        }
        match self.declared_as(t) {
            Declared::Interface(i) => self.leads(i, u),
            Declared::Class(c) => {
                let i = record_word(self.bytes, Section::Classes, c, 0);
                self.leads(i as usize - 1, u)
            }
            Declared::Neither => false,
        }
    }
}
