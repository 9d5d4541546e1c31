// How many records each section has, or has had so far.
ghost use Rattle.std.specs.Prelude.{◌≡◌, ◌+◌, ◌<◌, set};
ghost use Rattle.words.specs.Word.{WORD};
ghost use Rattle.limits.specs.Limits.{NODES};
ghost use Rattle.script.specs.declared.Section.{Section};
ghost use Rattle.script.specs.Section.{entry_of};
ghost use Rattle.bounds.specs.Counting.{counted_of, types_of, full_test};

use script::Section;
use sections::{entry_of, most_of};

// The counts of the sections, in the order of the file's contents.
#[derive(Clone, Copy)]
pub struct Counts {
    entries: [usize; 6],
}

impl Counts {
    pub const NONE: Counts = Counts { entries: [0; 6] };

    pub fn of(&self, section: Section) -> usize
        ensures { result ≡ counted_of self.now section }
    {
        self.entries[entry_of(section)]
    }

    // Has the section no room for a record more?
    pub(crate) fn is_full(&self, section: Section) -> bool
        ensures { result ≡ full_test self.now.entries (entry_of section) }
    {
        most_of(section) <= self.of(section)
    }

    // One record more of the section.
    pub(crate) fn count_one(&mut self, section: Section)
        requires { counted_of self.old section < NODES }
        ensures { self.new.entries ≡ set self.old.entries (entry_of section) (counted_of self.old section + 1) }
    {
        let entry = entry_of(section);
        self.entries[entry] += 1;
    }

    // How many types a text with so many records declares.
    pub fn types(&self) -> u16
        requires { types_of self.now < WORD }
        ensures { result ≡ types_of self.now }
    {
        (self.of(Section::Interfaces) + self.of(Section::Classes)) as u16
    }
}
