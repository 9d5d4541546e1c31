// The contents of a script file, and the kinds of its nodes.
ghost use Rattle.std.specs.Prelude.{◌≡◌, ◌<◌, ◌≤◌, length};
ghost use Rattle.words.specs.Word.{WORD};
ghost use Rattle.limits.specs.Limits.{CONTENTS};
ghost use Rattle.script.specs.Section.{entry_of, most_of, size_of, body_at, count_of};
ghost use Rattle.script.specs.Reading.{kind_of};

use limits::Limits;
use script::{Kind, Section};

// The number of a section's entry in the contents.
pub fn entry_of(k: Section) -> usize
    ensures { (result ≡ entry_of k) × (result < 6) }
{
    k as usize
}

// These two match, since the discriminant is the entry's number already.
// The bytes of a record.
pub fn size_of(k: Section) -> usize
    ensures { (result ≡ size_of k) × (result ≤ 8) }
{
    match k {
        Section::Interfaces => 6,
        Section::Signatures => 6,
        Section::Classes => 6,
        Section::Fields => 4,
        Section::Methods => 8,
        Section::Nodes => 8,
    }
}

// The most records of a section.
pub fn most_of(k: Section) -> usize
    ensures { result ≡ most_of k }
{
    match k {
        Section::Interfaces => Limits::INTERFACES,
        Section::Signatures => Limits::SIGNATURES,
        Section::Classes => Limits::CLASSES,
        Section::Fields => Limits::FIELDS,
        Section::Methods => Limits::METHODS,
        Section::Nodes => Limits::NODES,
    }
}

// Where a section's body stands, as the contents say.
pub fn body_at(s: &[u8], k: Section) -> usize
    requires { CONTENTS ≤ length s.now }
    ensures { (result ≡ body_at s.now k) × (result < WORD) }
{
    let e = entry_of(k);
    slices::word_at(s, 4 * e) as usize
}

// How many records a section has, as the contents say.
pub fn count_of(s: &[u8], k: Section) -> usize
    requires { CONTENTS ≤ length s.now }
    ensures { (result ≡ count_of s.now k) × (result < WORD) }
{
    let e = entry_of(k);
    slices::word_at(s, 4 * e + 2) as usize
}

// The kind that a word of a node is read as.
#[tactic(auto, using(crate::proofs::CodeLaws::kind_unknown), unfolding(script::specs::Reading::kind_of))]
pub fn kind_of(word: u16) -> Kind
    ensures { result ≡ kind_of word }
{
    match word {
        0 => Kind::Null,
        1 => Kind::Variable,
        2 => Kind::Select,
        3 => Kind::Update,
        4 => Kind::Call,
        5 => Kind::Let,
        6 => Kind::New,
        7 => Kind::Cast,
        8 => Kind::Fork,
        9 => Kind::Lock,
        10 => Kind::Constant,
        11 => Kind::Sum,
        _ => Kind::Unknown,
    }
}
