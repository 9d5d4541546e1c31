// Silent moves counted: how many a thread at a node makes before its next published step, wait or finish. The counts of all nodes are found in one pass from
// the last node to the first, since a node's parts stand behind it.
#![tactic(auto)]

ghost use Rattle.std.specs.Prelude.{◌≡◌, length};
ghost use Rattle.limits.specs.Limits.{NODES};
ghost use Rattle.script.specs.Statements.{WithinLayout};
ghost use Rattle.machine.specs.Config.{code_of};
ghost use Rattle.machine.specs.Silent.{silent_from, most_silent};
ghost use Rattle.silent.specs.CountTable.{CountIs, CountedFrom, Counting, DescendsBy};

use limits::Limits;
use script::{Kind, Section};
use sections::{count_of, kind_of, record_word};

// The count of node n, which descends into the node that its word j names.
fn descent_count(s: &[u8], counts: &[u16], n: usize, j: usize) -> u16
    requires { Counting s.now counts.now n × DescendsBy s.now n j }
    ensures { CountIs s.now n result }
{
    let p = record_word(s, Section::Nodes, n, j) as usize;
    1 + counts[p]
}

// The count of node n: "one for each descent and one for a final null or constant", and none for what is a published step or waits. Two kinds that count alike
// have an arm each where an edit changes the one alone.
fn node_count(s: &[u8], counts: &[u16], n: usize) -> u16
    requires { Counting s.now counts.now n }
    ensures { CountIs s.now n result }
{
    match kind_of(record_word(s, Section::Nodes, n, 0)) {
        Kind::Null => 1,
        Kind::Constant => 1,
        Kind::Update | Kind::Call => descent_count(s, counts, n, 3),
        Kind::Let => descent_count(s, counts, n, 2),
        Kind::Cast => descent_count(s, counts, n, 2),
        _ => 0,
    }
}

// These take a script's bytes with a fact about them and no Script: docs/THEOREMS.md names two of them, and Silent's call has no table of starts.
// Fills the table with the counts of all nodes, and answers the largest.
fn fill_counts(s: &[u8], counts: &mut [u16]) -> u16
    requires { WithinLayout s.now × (length counts.old ≡ NODES) }
    ensures { CountedFrom s.now counts.new 0 × (result ≡ most_silent (code_of s.now)) }
{
    let mut most = 0;
    for n in (0..count_of(s, Section::Nodes)).rev() {
        let count = node_count(s, counts, n);
        counts[n] = count;
        most = count.max(most);
    }
    most
}

// "the largest such count over all nodes of the script"
pub fn most_silent(s: &[u8]) -> u16
    requires { WithinLayout s.now }
    ensures { result ≡ most_silent (code_of s.now) }
{
    let mut counts = [0u16; Limits::NODES];
    fill_counts(s, &mut counts)
}

// The count of a node "given by number (the answer is 0 where no such node is)".
pub fn silent_from(s: &[u8], node: u32) -> u16
    requires { WithinLayout s.now }
    ensures { result ≡ silent_from (code_of s.now) node }
{
    let n = node as usize;
    if count_of(s, Section::Nodes) <= n {
        return 0;
    }
    let mut counts = [0u16; Limits::NODES];
    fill_counts(s, &mut counts);
    counts[n]
}
