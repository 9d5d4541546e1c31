// The table of the names of a text.
#![tactic(auto)]

ghost use Rattle.std.specs.Prelude.{◌≡◌, ◌≤◌, length};
ghost use Rattle.words.specs.Word.{WORD};
ghost use Rattle.tokens.specs.Runs as runs_spec;

use tokens::HASHES;

// Entry e has the byte where its name appears first, and its link: an older entry of the same hash and 1 more, or 0. A hash's head is its newest entry and
// 1 more, or 0. Numbers in place of an Option: one takes more memory, and clearing the heads takes time.
// Which names a table holds depends on the text that they stand in, which is lent to each call, so that `TableFilled` stands in clauses and not here.
#[derive(Drop)]
pub struct NameTable<const N: usize> {
    pub firsts: [u16; N],
    pub links: [u16; N],
    pub heads: [u32; HASHES],
    pub count: usize,
    pub ghost small: { N ≤ WORD },
    pub ghost within: { count ≤ N },
    pub ghost room: { (length firsts ≡ N) × (length links ≡ N) },
    pub ghost hashes: { length heads ≡ runs_spec.HASHES },
}
