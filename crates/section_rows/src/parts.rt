// Where the records of a section begin, and the node that a row is given.
ghost use Rattle.std.specs.Prelude.{◌≡◌, ◌+◌, ◌<◌, ◌≤◌, length};
ghost use Rattle.words.specs.Word.{WORD};
ghost use Rattle.bounds.specs.Places.{places_from};

use crate::{Records, Source};
use bounds::index_of;
use script::Section;
use token_words::Node;

impl<'a> Records<'a> {
    // The tokens at which records of the section begin.
    pub fn places(&self, section: Section) -> &'a [u16]
        ensures { result.now ≡ places_from section 0 self.now.items.tokens.roles.now }
    {
        let first = index_of(section);
        &self.index[first..first + self.counts.of(section)]
    }
}

impl<'a> Source<'a> {
    // Node n, where the sizes of the nodes behind it stand from `from` on.
    pub fn node(&self, n: u16, from: usize) -> Node<'a>
        requires few { n + 1 + length self.now.sizes.now < WORD }
        requires in_bounds { from ≤ WORD }
        ensures number { result.n ≡ n }
        ensures start { result.from ≡ from }
        ensures sizes { result.sizes.now ≡ self.now.sizes.now }
    {
        Node {
            n,
            sizes: self.sizes,
            from,
        }
    }
}
