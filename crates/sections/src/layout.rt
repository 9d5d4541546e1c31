// Questions 1, 2, 3 and 5: the script as a whole.
ghost use Rattle.std.specs.Prelude.{◌≡◌, ◌≤◌, leb, length};
ghost use Rattle.limits.specs.Limits.{CONTENTS};
ghost use Rattle.std.specs.List.{list_all};
ghost use Rattle.script.specs.Section.{sections, most_of, count_of, end_of};
ghost use Rattle.script.specs.Questions.{length_test, counts_test, places_test, owners_test};
ghost use Rattle.sections.specs.Laid.{owned_test, owner_of};

use crate::contents::{body_at, count_of, most_of, size_of};
use crate::files::File;
use limits::Limits;
use script::Section;

// The sections, in the order of their bodies.
const SECTIONS: [Section; 6] = [
    Section::Interfaces,
    Section::Signatures,
    Section::Classes,
    Section::Fields,
    Section::Methods,
    Section::Nodes,
];

// 1. Is the file 24 to 13,592 bytes?
#[tactic(auto, unfolding(script::specs::Questions::length_test))]
pub fn length_fits(s: &[u8]) -> bool
    ensures { result ≡ length_test s.now }
{
    Limits::CONTENTS <= s.len() && s.len() <= Limits::FILE
}

// Is each section's count within the table?
#[tactic(auto, unfolding(script::specs::Section::sections))]
fn counts_within(s: &[u8]) -> bool
    requires { CONTENTS ≤ length s.now }
    ensures { result ≡ list_all (λ k. leb (count_of s.now k) (most_of k)) sections }
{
    SECTIONS.iter().all(|k| count_of(s, *k) <= most_of(*k))
}

// 2. Are counts within the table, and is there a node?
pub fn counts_fit(s: &[u8]) -> bool
    requires { CONTENTS ≤ length s.now }
    ensures { result ≡ counts_test s.now }
{
    counts_within(s) && 0 < count_of(s, Section::Nodes)
}

// The first byte after a section's body. A count is a word, so nothing overflows.
#[tactic(auto, unfolding(script::specs::Section::end_of))]
fn end_of(s: &[u8], k: Section) -> usize
    requires { CONTENTS ≤ length s.now }
    ensures { result ≡ end_of s.now k }
{
    let at = body_at(s, k);
    let size = size_of(k);
    let n = count_of(s, k);
    at + size * n
}

// 3. Are the bodies where the contents must place them, the last ending with the file?
pub fn places_fit(s: &[u8]) -> bool
    requires { CONTENTS ≤ length s.now }
    ensures { result ≡ places_test s.now }
{
    let mut at = Limits::CONTENTS;
    for k in SECTIONS {
        if body_at(s, k) != at {
            return false;
        }
        at = end_of(s, k);
    }
    at == s.len()
}

// The section whose records own those of section k.
pub fn owner_of(k: Section) -> Section
    ensures { result ≡ owner_of k }
{
    match k {
        Section::Signatures => Section::Interfaces,
        Section::Fields | Section::Methods => Section::Classes,
        _ => k,
    }
}

// Do the owners' counts add up to a section's count?
fn owned_fit(file: &File, k: Section) -> bool
    ensures { result ≡ owned_test file.now.bytes.now k }
{
    let n = file.count_of(owner_of(k));
    let mut sum: usize = 0;
    for o in 0..n {
        sum += file.own_count(k, o);
    }
    sum == file.count_of(k)
}

// 5. Do owners' counts add up to each section's count?
#[tactic(auto, unfolding(script::specs::Questions::owners_test))]
pub fn owners_fit(file: &File) -> bool
    ensures { result ≡ owners_test file.now.bytes.now }
{
    owned_fit(file, Section::Signatures)
        && owned_fit(file, Section::Fields)
        && owned_fit(file, Section::Methods)
}
