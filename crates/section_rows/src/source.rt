// What the sections are written from.
ghost use Rattle.std.specs.Prelude.{◌≡◌};
ghost use Rattle.bounds.specs.Places.{IndexIs};
ghost use Rattle.bounds.specs.Counting.{types_of};
ghost use Rattle.rows.specs.Rows.{sizes_of};
ghost use Rattle.token_words.specs.Items.{items_of};
ghost use Rattle.section_rows.specs.Counted.{CountsFit, CountsRight};

use bounds::Counts;
use token_words::Items;

// The items of a text, with the places of all records and their counts, of which none is too large.
#[derive(Clone, Copy)]
pub struct Records<'a> {
    pub items: Items<'a>,
    pub index: &'a [u16],
    pub counts: Counts,
    pub ghost indexed: { IndexIs items.tokens.roles.now index.now },
    pub ghost counted: { CountsRight items.tokens.roles.now counts },
    pub ghost few_records: { CountsFit counts },
    pub ghost types_are: { items.types ≡ types_of counts },
}

// And with the sizes of all nodes.
#[derive(Clone, Copy)]
pub struct Source<'a> {
    pub records: Records<'a>,
    pub sizes: &'a [u16],
    pub ghost sizes_are: { sizes.now ≡
        sizes_of (items_of records.items.tokens.text.bytes.now records.items.tokens.roles.now records.items.tokens.offsets.now records.items.values.now) },
}
