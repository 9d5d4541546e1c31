// A script file whose contents are in order, and access to its records.
ghost use Rattle.sections.specs.Laid.{Laid, Laid-prop};

use crate::contents;
use script::Section;

// The bytes of a script for which questions 1 to 3 got a yes.
#[derive(Clone, Copy)]
pub struct File<'a> {
    pub bytes: &'a [u8],
    pub ghost laid: { Laid bytes.now } by { Laid-prop bytes.now },
}

impl File<'_> {
    ghost use Rattle.std.specs.Prelude.{◌≡◌, ◌+◌, ◌*◌, ◌-◌, ◌<◌, ◌≤◌};
    ghost use Rattle.words.specs.Word.{WORD};
    ghost use Rattle.limits.specs.Limits.{FILE};
    ghost use Rattle.script.specs.Section.{size_of, count_of, record_at, record_word};
    ghost use Rattle.script.specs.Asking.{first_out_of};
    ghost use Rattle.sections.specs.Laid.{owner_of, own_of, found_of, other_name};

    // How many records a section has.
    pub fn count_of(&self, k: Section) -> usize
        ensures { (result ≡ count_of self.now.bytes.now k) × (result < WORD) }
    {
        contents::count_of(self.bytes, k)
    }

    // The offset of record i of a section, which has that record or ends there.
    pub fn record_at(&self, k: Section, i: usize) -> usize
        requires { i ≤ count_of self.now.bytes.now k }
        ensures { (result ≡ record_at self.now.bytes.now k i) × (result ≤ FILE) }
    {
        let at = contents::body_at(self.bytes, k);
        let size = contents::size_of(k);
        at + size * i
    }

    // Word j of record i of a section.
    pub fn record_word(&self, k: Section, i: usize, j: usize) -> u16
        requires { (i < count_of self.now.bytes.now k) × (2 * j + 1 < size_of k) }
        ensures { (result ≡ record_word self.now.bytes.now k i j) × (result < WORD) }
    {
        let at = self.record_at(k, i);
        slices::word_at(self.bytes, at + 2 * j)
    }

    // The first of the records of section k from `from` up to `to` that has the name x.
    pub fn find_name(&self, k: Section, from: usize, to: usize, x: u16) -> Option<usize>
        requires { to ≤ count_of self.now.bytes.now k }
        ensures { result ≡ found_of (first_out_of (other_name self.now.bytes.now k x) from (to - from)) }
    {
        for i in from..to {
            if self.record_word(k, i, 0) == x {
                return Some(i);
            }
        }
        None
    }

    // How many records of section k belong to owner o.
    #[tactic(auto, unfolding(script::specs::Reading::own_signatures, script::specs::Reading::own_fields, script::specs::Reading::own_methods))]
    pub fn own_count(&self, k: Section, o: usize) -> usize
        requires { o < count_of self.now.bytes.now (owner_of k) }
        ensures { (result ≡ own_of self.now.bytes.now k o) × (result < WORD) }
    {
        match k {
            Section::Signatures => {
                if self.record_word(Section::Interfaces, o, 0) != 0 {
                    return 0;
                }
                self.record_word(Section::Interfaces, o, 1) as usize
            }
            Section::Fields => self.record_word(Section::Classes, o, 1) as usize,
            Section::Methods => self.record_word(Section::Classes, o, 2) as usize,
            _ => 0,
        }
    }
}
