// The same of a script's bytes, for callers that hold them as part of a Script, whose facts say that they are in order.
ghost use Rattle.std.specs.Prelude.{◌≡◌, ◌+◌, ◌*◌, ◌-◌, ◌<◌, ◌≤◌};
ghost use Rattle.words.specs.Word.{WORD};
ghost use Rattle.limits.specs.Limits.{FILE};
ghost use Rattle.script.specs.Section.{size_of, count_of, record_at, record_word, node_word};
ghost use Rattle.script.specs.Reading.{kind_of};
ghost use Rattle.script.specs.Asking.{first_out_of};
ghost use Rattle.script.specs.Statements.{WithinLayout};
ghost use Rattle.sections.specs.Laid.{Laid, owner_of, own_of, found_of, other_name};

use crate::contents;
use crate::files::File;
use script::{Kind, Section};

// The offset of record i of a section, which has that record or ends there.
pub fn record_at(s: &[u8], k: Section, i: usize) -> usize
    requires { Laid s.now × (i ≤ count_of s.now k) }
    ensures { (result ≡ record_at s.now k i) × (result ≤ FILE) }
{
    File { bytes: s }.record_at(k, i)
}

// Word j of record i of a section.
pub fn record_word(s: &[u8], k: Section, i: usize, j: usize) -> u16
    requires { Laid s.now × (i < count_of s.now k) × (2 * j + 1 < size_of k) }
    ensures { (result ≡ record_word s.now k i j) × (result < WORD) }
{
    File { bytes: s }.record_word(k, i, j)
}

// Word j of node n.
pub fn node_word(s: &[u8], n: u16, j: usize) -> u16
    requires { WithinLayout s.now × (n < count_of s.now Section.Nodes) × (j < 4) }
    ensures { (result ≡ node_word s.now n j) × (result < WORD) }
{
    record_word(s, Section::Nodes, n as usize, j)
}

// The kind of node n.
pub fn kind_at(s: &[u8], n: u16) -> Kind
    requires { WithinLayout s.now × (n < count_of s.now Section.Nodes) }
    ensures { result ≡ kind_of (node_word s.now n 0) }
{
    contents::kind_of(node_word(s, n, 0))
}

// The first of the records of section k from `from` up to `to` that has the name x.
pub fn find_name(s: &[u8], k: Section, from: usize, to: usize, x: u16) -> Option<usize>
    requires { Laid s.now × (to ≤ count_of s.now k) }
    ensures { result ≡ found_of (first_out_of (other_name s.now k x) from (to - from)) }
{
    File { bytes: s }.find_name(k, from, to, x)
}

// How many records of section k belong to owner o.
pub fn own_count(s: &[u8], k: Section, o: usize) -> usize
    requires { Laid s.now × (o < count_of s.now (owner_of k)) }
    ensures { (result ≡ own_of s.now k o) × (result < WORD) }
{
    File { bytes: s }.own_count(k, o)
}
