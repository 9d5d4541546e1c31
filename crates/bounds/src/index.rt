// An index of records: for each section, from its place here on, the tokens at which its records begin.
ghost use Rattle.std.specs.Prelude.{◌≡◌, ◌+◌, ◌<◌, false, length, set};
ghost use Rattle.words.specs.Word.{WORD};
ghost use Rattle.script.specs.declared.Section.TheVariants.{Interfaces as interfaces, Signatures as signatures, Classes as classes};
ghost use Rattle.script.specs.declared.Section.TheVariants.{Fields as fields, Methods as methods, Nodes as nodes};
ghost use Rattle.script.specs.Section.{entry_of};
ghost use Rattle.bounds.specs.Places.{index_of, RECORDS};
ghost use Rattle.bounds.specs.Counting.{counted_of, full_test};

use crate::Counts;
use limits::Limits;
use script::Section;

#[derive(Clone, Copy)]
pub struct Index {}

impl Index {
    pub const INTERFACES: usize = 0;

    pub const SIGNATURES: usize = Limits::INTERFACES;

    pub const CLASSES: usize = Self::SIGNATURES + Limits::SIGNATURES;

    pub const FIELDS: usize = Self::CLASSES + Limits::CLASSES;

    pub const METHODS: usize = Self::FIELDS + Limits::FIELDS;

    pub const NODES: usize = Self::METHODS + Limits::METHODS;

    pub const RECORDS: usize = Self::NODES + Limits::NODES;
}

// The constants and the definitions are the same numbers.
pub fn agreed()
    ensures interfaces { Index.INTERFACES ≡ index_of interfaces }
    ensures signatures { Index.SIGNATURES ≡ index_of signatures }
    ensures classes { Index.CLASSES ≡ index_of classes }
    ensures fields { Index.FIELDS ≡ index_of fields }
    ensures methods { Index.METHODS ≡ index_of methods }
    ensures nodes { Index.NODES ≡ index_of nodes }
    ensures records { Index.RECORDS ≡ RECORDS }
{}

// A match, since a section's discriminant is the number of its entry in the contents.
// Where the places of a section begin in the index.
pub fn index_of(section: Section) -> usize
    ensures { result ≡ index_of section }
{
    match section {
        Section::Interfaces => Index::INTERFACES,
        Section::Signatures => Index::SIGNATURES,
        Section::Classes => Index::CLASSES,
        Section::Fields => Index::FIELDS,
        Section::Methods => Index::METHODS,
        Section::Nodes => Index::NODES,
    }
}

// Puts the place i of the next record of a section into the index.
pub fn put_place(counts: &Counts, index: &mut [u16], section: Section, i: usize)
    requires bound { (i < WORD) × (length index.old ≡ RECORDS) }
    requires room { full_test counts.now.entries (entry_of section) ≡ false }
    ensures { index.new ≡ set index.old (index_of section + counted_of counts.now section) i }
{
    index[index_of(section) + counts.of(section)] = i as u16;
}
