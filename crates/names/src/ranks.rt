// The ranks of a script's variables: given in one pass over the slots, and found again by name.
ghost use Rattle.std.specs.Prelude.{◌≡◌, ◌+◌, ◌*◌, ◌<◌, length, get_or, set};
ghost use Rattle.words.specs.Word.{WORD};
ghost use Rattle.script.specs.declared.Section.TheVariants.{Nodes as nodes};
ghost use Rattle.script.specs.Section.{count_of, node_word};
ghost use Rattle.script.specs.Reading.{kind_of};
ghost use Rattle.script.specs.Statements.{WithinLayout};
ghost use Rattle.slices.specs.Zero.{AllZero};
ghost use Rattle.names.specs.Ranks.{SLOTS, FACTS, slot_word, SlotNames, Ranked, hash_of, head_of, link_of, Search, Indexed};
ghost use Rattle.names.specs.Facts.{Facts};
ghost use Rattle.names.specs.Filling.{RankIs, names_kind, Nameless, Linked, FilledTo};

use crate::{BUCKETS, SLOTS, SPACING};
use script::{Kind, Section};
use sections::{count_of, kind_of, record_word};
use subtypes::Script;

// The word at slot k.
fn slot_word(s: &[u8], k: usize) -> u16
    requires { WithinLayout s.now × (k < 2 * count_of s.now nodes) }
    ensures { (result ≡ slot_word s.now k) × (result < WORD) }
{
    record_word(s, Section::Nodes, k / 2, 1 + k % 2)
}

// The word of the bucket that the variable x belongs to.
fn bucket_of(x: u16) -> usize
    ensures { (result ≡ SLOTS + SLOTS + hash_of x) × (SLOTS + SLOTS < result + 1) × (result < FACTS) }
{
    let name = x as usize;
    SLOTS + SLOTS + (name + name / SPACING) % BUCKETS
}

// The slot that word k of the table links to.
fn link_at(facts: &[u16], k: usize) -> Option<usize>
    requires { k < length facts.now }
    ensures { link_of result ≡ get_or facts.now k 0 }
{
    (facts[k] as usize).checked_sub(1)
}

// A link tells the next slot, so there is no range for a `for` to go through.
// The slot that is found in a bucket for the variable x.
fn find_slot(s: &[u8], facts: &[u16], x: u16) -> Option<usize>
    requires { WithinLayout s.now × Linked s.now facts.now }
    ensures { Search s.now facts.now x (head_of facts.now x) (link_of result) }
{
    let mut next = link_at(facts, bucket_of(x));
    while let Some(k) = next {
        if slot_word(s, k) == x {
            return Some(k);
        }
        next = link_at(facts, SLOTS + k);
    }
    None
}

// Bytes that are within layout, and no Script: `environments::fill` hands them on, whose callers need no table of starts.
// The rank of the variable x.
pub fn rank_of(s: &[u8], facts: &[u16], x: u16) -> Option<u16>
    requires { WithinLayout s.now × Facts s.now facts.now }
    ensures { RankIs s.now facts.now x result }
{
    if x < 2 {
        return Some(x);
    }
    let k = find_slot(s, facts, x)?;
    Some(facts[k])
}

// How many variables node n names. A let names the one that it binds, a sum the two that it adds.
fn names_at(script: &Script, n: usize) -> usize
    requires { n < count_of script.now.bytes.now nodes }
    ensures { result ≡ names_kind (kind_of (node_word script.now.bytes.now n 0)) }
{
    match kind_of(record_word(script.bytes, Section::Nodes, n, 0)) {
        Kind::Variable | Kind::Select | Kind::Update | Kind::Call | Kind::Let | Kind::Lock => 1,
        Kind::Sum => 2,
        _ => 0,
    }
}

// Makes slot k the first of the bucket of the variable x.
fn link_slot(facts: &mut [u16], k: usize, x: u16)
    requires { (length facts.old ≡ FACTS) × (k < SLOTS) }
    ensures { facts.new ≡
        set (set facts.old (SLOTS + k) (head_of facts.old x)) (SLOTS + SLOTS + hash_of x) (k + 1) }
{
    let bucket = bucket_of(x);
    facts[SLOTS + k] = facts[bucket];
    facts[bucket] = (k + 1) as u16;
}

// Gives the variable that stands at slot k its rank, where `count` ranks are given so far, and answers how many then are.
fn fill_slot(script: &Script, facts: &mut [u16], k: usize, count: usize) -> usize
    requires { SlotNames script.now.bytes.now k (slot_word script.now.bytes.now k) × FilledTo script.now.bytes.now facts.old k count }
    ensures { FilledTo script.now.bytes.now facts.new (k + 1) result }
{
    let x = slot_word(script.bytes, k);
    if x < 2 {
        facts[k] = x;
        return count;
    }
    if let Some(j) = find_slot(script.bytes, facts, x) {
        facts[k] = facts[j];
        return count;
    }
    facts[k] = count as u16;
    link_slot(facts, k, x);
    count + 1
}

// Gives the variables that node n names their ranks, where `before` ranks are given so far, and answers how many then are.
fn fill_rank(script: &Script, facts: &mut [u16], n: usize, before: usize) -> usize
    requires { (n < count_of script.now.bytes.now nodes) × FilledTo script.now.bytes.now facts.old (2 * n) before }
    ensures { FilledTo script.now.bytes.now facts.new (2 * (n + 1)) result }
{
    let names = names_at(script, n);
    let mut count = before;
    for j in 0..names {
        count = fill_slot(script, facts, 2 * n + j, count);
    }
    count
}

// Fills a table of zeros with the ranks of the variables and with the buckets, and answers how many ranks there are.
pub fn fill_ranks(script: &Script, facts: &mut [u16]) -> usize
    requires { (length facts.old ≡ FACTS) × AllZero facts.old }
    ensures { Ranked script.now.bytes.now facts.new result × Indexed script.now.bytes.now facts.new × Nameless script.now.bytes.now facts.new }
{
    let nodes = count_of(script.bytes, Section::Nodes);
    let mut count = 2;
    for n in 0..nodes {
        count = fill_rank(script, facts, n, count);
    }
    count
}
