// Names numbered by first appearance over the tokens of a text, each sort alone. The names of a sort are linked first, so that no pass looks at other tokens.
#![tactic(auto)]

mod linked;

ghost use Rattle.std.specs.Prelude.{◌≡◌, true, [], ◌+◌, ◌<◌, ◌≤◌, eqb, length, get_or};
ghost use Rattle.words.specs.Word.{WORD};
ghost use Rattle.spellings.specs.Table.{TableFilled, Holds};
ghost use Rattle.numbering.specs.Numbers.{role_test, chosen_number, Numbered, Numbers};
ghost use Rattle.numbering.specs.Chains.{next_in, first_name, sort_number, ChainsAre, SortIs, HeadsFrom};

pub use linked::Linked;
use spellings::NameTable;
use token_words::Roles;
use tokens::Tokens;

// The sorts of names, "each sort alone": those that are numbered, and names of types, which have the numbers of declared names.
#[derive(Clone, Copy)]
pub enum Sort {
    Declared,
    Types,
    Methods,
    Fields,
    Variables,
}

const SORTS: usize = 5;

impl Sort {
    // The place of a sort among the sorts.
    fn number(self) -> usize
        ensures { result ≡ sort_number self }
    {
        self as usize
    }
}

// The first token of each sort, or the number of tokens, where a walk along the chain ends.
#[derive(Clone, Copy)]
pub struct Firsts {
    pub by_sort: [usize; SORTS],
}

impl Firsts {
    pub fn of(&self, sort: Sort) -> usize
        ensures { result ≡ first_name self.now sort }
    {
        self.by_sort[sort.number()]
    }
}

// The sort that a token of this role is a name of.
fn sort_of(role: u8) -> Option<Sort>
    ensures { SortIs role result }
{
    if role / Roles::BINDING == Roles::OTHER {
        return Some(Sort::Variables);
    }
    match role {
        Roles::DECLARED => Some(Sort::Declared),
        Roles::TYPE => Some(Sort::Types),
        Roles::SIGNATURE => Some(Sort::Methods),
        Roles::METHOD_NAME => Some(Sort::Methods),
        Roles::METHOD_USED => Some(Sort::Methods),
        Roles::FIELD => Some(Sort::Fields),
        Roles::FIELD_USED => Some(Sort::Fields),
        Roles::BINDER => Some(Sort::Variables),
        _ => None,
    }
}

// What is kept for token i where `next` is the next one of its sort: a token that leads to itself is the last.
fn link_to(next: usize, i: usize, n: usize) -> u16
    requires { (next ≤ n) × (i < n) × (n ≤ WORD) }
    ensures { result ≡ chosen_number (eqb next n) i next }
{
    if next == n {
        return i as u16;
    }
    next as u16
}

// Links token i, where those behind it are linked.
fn link(roles: &[u8], i: usize, chain: &mut [u16], heads: &mut Firsts)
    requires i_in_bounds { (i < length roles.now) × (length roles.now ≤ WORD) }
    requires heads_from { HeadsFrom roles.now (i + 1) (length roles.now) chain.old heads.old.by_sort }
    ensures { HeadsFrom roles.now i (length roles.now) chain.new heads.new.by_sort }
{
    let n = roles.len();
    if let Some(sort) = sort_of(roles[i]) {
        chain[i] = link_to(heads.of(sort), i, n);
        heads.by_sort[sort.number()] = i;
    }
}

// Links the names of each sort, from the back: each leads to the next, and the last to itself.
pub fn link_names(roles: &[u8], chain: &mut [u16]) -> Firsts
    requires { (length roles.now ≤ length chain.old) × (length roles.now ≤ WORD) }
    ensures { ChainsAre roles.now (length roles.now) chain.new result }
{
    let mut heads = Firsts {
        by_sort: [roles.len(); SORTS],
    };
    for i in (0..roles.len()).rev() {
        link(roles, i, chain, &mut heads);
    }
    heads
}

impl Linked<'_> {
    // The name that follows token i in its chain, or the number of tokens.
    pub fn next_in(&self, i: usize) -> usize
        requires { i < length self.now.chain.now }
        ensures { result ≡ next_in self.now.chain.now i (length self.now.tokens.roles.now) }
    {
        let next = self.chain[i] as usize;
        if next == i {
            return self.tokens.roles.len();
        }
        next
    }
}

// Numbers token i, which is a name of the sort.
fn number_token<const N: usize>(
    tokens: &Tokens,
    sort: Sort,
    i: usize,
    values: &mut [u16],
    table: &mut NameTable<N>,
)
    requires i_in_bounds { (i < length tokens.now.roles.now) × (i < length values.old) × (i < N) }
    requires i_value { role_test sort (get_or tokens.now.roles.now i 0) ≡ true }
    requires table_filled { TableFilled tokens.now.text.bytes.now table.old × (table.old.count ≤ i) }
    ensures { Numbers (role_test sort) tokens.now.text.bytes.now tokens.now.roles.now tokens.now.offsets.now i values.old table.old values.new table.new }
{
    values[i] = table.enter(&tokens.text, tokens.offsets[i]) as u16;
}

// A link tells the next token of the sort, so there is no range for a `for` to go through.
// Numbers the names of a sort by first appearance. The table is empty before, and then holds them.
pub fn number_names<const N: usize>(
    linked: &Linked,
    sort: Sort,
    values: &mut [u16],
    table: &mut NameTable<N>,
)
    requires room { (length linked.now.tokens.roles.now ≤ length values.old) × (length linked.now.tokens.roles.now ≤ N) }
    requires table_holds { Holds linked.now.tokens.text.bytes.now table.old [] × (table.old.count ≡ 0) }
    ensures { Numbered sort linked.now.tokens values.old values.new table.new }
{
    let mut i = linked.firsts.of(sort);
    while i < linked.tokens.roles.len() {
        number_token(&linked.tokens, sort, i, values, table);
        i = linked.next_in(i);
    }
}
