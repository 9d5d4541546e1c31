// What the name or the digits at a byte say.
ghost use Rattle.std.specs.Prelude.{◌≡◌, [], ◌≤◌, length, drop};
ghost use Rattle.grammar.specs.Tokens.{same_spelling, decimal};
ghost use Rattle.tokens.specs.Names.{NameIs};
ghost use Rattle.tokens.specs.Runs.{word_from, digits_from, capped};

use crate::{BEYOND, HASHES, NAME, Name, Text};

impl Text<'_> {
    // The name at byte `at`.
    pub fn name_at(&self, at: usize) -> Name
        requires { at ≤ length self.now.bytes.now }
        ensures { NameIs self.now.bytes.now at result }
    {
        let mut hash = 0;
        for i in at..self.bytes.len() {
            if self.kind_at(i) < NAME {
                return Name { hash, size: i - at };
            }
            hash = (hash * 131 + self.bytes[i] as usize) % HASHES;
        }
        Name {
            hash,
            size: self.bytes.len() - at,
        }
    }

    // Does no word go on at byte `at`?
    fn word_ends(&self, at: usize) -> bool
        requires { at ≤ length self.now.bytes.now }
        ensures { result ≡ same_spelling (word_from (drop at self.now.bytes.now)) [] }
    {
        at == self.bytes.len() || self.kind_at(at) < NAME
    }

    // No `starts_with`: it is a call for each name of a bucket, most of which differ in their first byte, and Read takes twice the time over many such names.
    // Is the name at byte a that at byte `at`, which has so many bytes?
    pub fn is_name(&self, a: usize, at: usize, size: usize) -> bool
        requires in_text { (a ≤ length self.now.bytes.now) × (at ≤ length self.now.bytes.now) }
        requires size_value { size ≡ length (word_from (drop at self.now.bytes.now)) }
        ensures { result ≡ same_spelling (word_from (drop a self.now.bytes.now)) (word_from (drop at self.now.bytes.now)) }
    {
        if self.bytes.len() - a < size {
            return false;
        }
        for i in 0..size {
            if self.bytes[a + i] != self.bytes[at + i] {
                return false;
            }
        }
        self.word_ends(a + size)
    }
}

// The value of the digits at byte `at`, as far as it is no larger than any integer.
pub fn magnitude_at(text: &[u8], at: usize) -> u32
    requires { at ≤ length text.now }
    ensures { result ≡ capped (decimal (digits_from (drop at text.now))) }
{
    let mut value: u64 = 0;
    for i in at..text.len() {
        let b = text[i];
        if !b.is_ascii_digit() {
            return value as u32;
        }
        value = value * 10 + (b - b'0') as u64;
        if BEYOND as u64 <= value {
            return BEYOND;
        }
    }
    value as u32
}
