// Tables of names by hash: a name is found, and a new one put behind the others.
#![tactic(auto)]

mod table;

ghost use Rattle.std.specs.Prelude.{◌≡◌, ◌+◌, ◌<◌, ◌≤◌, length, get_or, set};
ghost use Rattle.words.specs.Word.{WORD};
ghost use Rattle.tokens.specs.Names.{NameIs};
ghost use Rattle.spellings.specs.Table.{name_from, TableFilled, IsEmpty, PlaceIs, EntryIs, Grows, CountGrows};

pub use table::NameTable;
use tokens::{HASHES, Name, Text};

impl<const N: usize> NameTable<N> {
    // A table of no name.
    pub fn new() -> Self
        requires { N ≤ WORD }
        ensures { IsEmpty result }
    {
        NameTable {
            firsts: [0; N],
            links: [0; N],
            heads: [0; HASHES],
            count: 0,
        }
    }

    // Forgets all names.
    pub fn clear(&mut self)
        ensures { IsEmpty self.new }
    {
        self.heads.fill(0);
        self.count = 0;
    }

    // A link tells the next entry, so there is no range for a `for` to go through.
    // The entry of the name at `at`, of which hash and size are known.
    fn search(&self, text: &Text, at: usize, name: Name) -> Option<usize>
        requires table_filled { TableFilled text.now.bytes.now self.now × (at ≤ length text.now.bytes.now) }
        requires name_value { NameIs text.now.bytes.now at name }
        ensures { EntryIs text.now.bytes.now self.now (name_from text.now.bytes.now at) result }
    {
        let mut next = self.heads[name.hash] as usize;
        while 0 < next {
            let e = next - 1;
            if text.is_name(self.firsts[e] as usize, at, name.size) {
                return Some(e);
            }
            next = self.links[e] as usize;
        }
        None
    }

    // The entry of the name at `at`.
    pub fn find(&self, text: &Text, at: u16) -> Option<usize>
        requires { TableFilled text.now.bytes.now self.now × (at ≤ length text.now.bytes.now) }
        ensures { EntryIs text.now.bytes.now self.now (name_from text.now.bytes.now at) result }
    {
        let place = at as usize;
        self.search(text, place, text.name_at(place))
    }

    // Makes the name at `at` the newest entry, and the newest of its hash.
    fn add(&mut self, at: u16, hash: usize)
        requires count_in_bounds { self.old.count < N }
        requires hash_in_bounds { (hash < length self.old.heads) × (get_or self.old.heads hash 0 < WORD) }
        ensures firsts_after { self.new.firsts ≡ set self.old.firsts self.old.count at }
        ensures links_after { self.new.links ≡ set self.old.links self.old.count (get_or self.old.heads hash 0) }
        ensures heads_after { self.new.heads ≡ set self.old.heads hash (self.old.count + 1) }
        ensures count_after { self.new.count ≡ self.old.count + 1 }
    {
        self.firsts[self.count] = at;
        self.links[self.count] = self.heads[hash] as u16;
        self.heads[hash] = (self.count + 1) as u32;
        self.count += 1;
    }

    // The entry of the name at `at`, which is put behind the others if it is new.
    pub fn enter(&mut self, text: &Text, at: u16) -> usize
        requires table_filled { TableFilled text.now.bytes.now self.old × (at ≤ length text.now.bytes.now) }
        requires count_in_bounds { self.old.count < N }
        ensures place_is { PlaceIs text.now.bytes.now self.old (name_from text.now.bytes.now at) result }
        ensures grows { Grows text.now.bytes.now self.old (name_from text.now.bytes.now at) self.new }
        ensures count_grows { CountGrows text.now.bytes.now self.old (name_from text.now.bytes.now at) self.new }
    {
        let place = at as usize;
        let name = text.name_at(place);
        if let Some(e) = self.search(text, place, name) {
            return e;
        }
        let e = self.count;
        self.add(at, name.hash);
        e
    }
}
