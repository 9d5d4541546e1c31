// The free variables of a node, as one bit for each rank of a span, by the masks of its parts; and the mark of a fork, by those of its asyncs.
ghost use Rattle.std.specs.Prelude.{◌≡◌, List, ◌∷◌, ℕ, ◌+◌, ◌*◌, ◌<◌, length, get_or};
ghost use Rattle.limits.specs.Limits.{NODES};
ghost use Rattle.script.specs.declared.Kind.TheVariants.{Let, Fork, Sum};
ghost use Rattle.script.specs.declared.Section.TheVariants.{Nodes as nodes};
ghost use Rattle.script.specs.Lists.{◌∈◌};
ghost use Rattle.script.specs.Section.{count_of, node_word};
ghost use Rattle.script.specs.Syntax.{parts};
ghost use Rattle.script.specs.Reading.{kind_of, view_at, expr_at};
ghost use Rattle.typing.specs.Typing.{fv};
ghost use Rattle.names.specs.Ranks.{Names};
ghost use Rattle.masks.specs.Free.{SPAN, MaskOf, RankMask, FreeMask, mask_at, Along, ForkMark, IsFork};
ghost use Rattle.masks.specs.Gathered.{Ready, MaskIs};

use crate::SPAN;
use script::{Kind, Section};
use sections::{kind_of, record_word};
use subtypes::Script;

// The mask of one rank: no bit, if it is not in the span from `start` on.
fn bit_of(rank: usize, start: usize) -> u32
    ensures { RankMask start rank result }
{
    if rank < start {
        return 0;
    }
    let k = rank - start;
    if k >= SPAN {
        return 0;
    }
    1u32 << k
}

// The mask of the part of node n that word j names.
fn part_mask(script: &Script, masks: &[u32], n: usize, j: usize) -> u32
    requires { (n < count_of script.now.bytes.now nodes) × (j < 4) × (node_word script.now.bytes.now n j < length masks.now) }
    ensures { result ≡ get_or masks.now (node_word script.now.bytes.now n j) 0 }
{
    masks[record_word(script.bytes, Section::Nodes, n, j) as usize]
}

// What a node's mask is gathered from, for the span from `start` on: the ranks in the table of facts, and the masks of the nodes after it.
#[derive(Clone, Copy)]
pub struct Gathering<'a> {
    pub script: Script<'a>,
    pub facts: &'a [u16],
    pub masks: &'a [u32],
    pub start: usize,
}

impl Gathering<'_> {
    // The mask of the variable that stands at a slot.
    fn name_mask(&self, slot: usize) -> u32
        requires { slot < length self.now.facts.now }
        ensures { RankMask self.now.start (get_or self.now.facts.now slot 0) result }
    {
        bit_of(self.facts[slot] as usize, self.start)
    }

    // The mask of node n, which uses a variable and whose part is word j.
    fn use_mask(&self, n: usize, j: usize) -> u32
        requires ahead { Ready self.now n × Names self.now.script.bytes.now n 0 (node_word self.now.script.bytes.now n 1) }
        requires j_bound { (j < 4) × (node_word self.now.script.bytes.now n j ∈ parts (view_at self.now.script.bytes.now n)) }
        ensures { MaskOf self.now.script.bytes.now self.now.facts.now self.now.start result
            (node_word self.now.script.bytes.now n 1 ∷ fv (expr_at self.now.script.bytes.now (node_word self.now.script.bytes.now n j))) }
    {
        self.name_mask(2 * n) | part_mask(&self.script, self.masks, n, j)
    }

    // The mask of node n, which is a let: its variable is not free, so its bit in the body's mask is set and then flipped.
    fn let_mask(&self, n: usize) -> u32
        requires { Ready self.now n × (kind_of (node_word self.now.script.bytes.now n 0) ≡ Let) }
        ensures { MaskIs self.now n result }
    {
        let own = self.name_mask(2 * n);
        let first = part_mask(&self.script, self.masks, n, 2);
        let body = part_mask(&self.script, self.masks, n, 3);
        first | ((body | own) ^ own)
    }

    // The mask of node n, which is a fork.
    fn fork_mask(&self, n: usize) -> u32
        requires { Ready self.now n × (kind_of (node_word self.now.script.bytes.now n 0) ≡ Fork) }
        ensures { MaskIs self.now n result }
    {
        let a = part_mask(&self.script, self.masks, n, 1);
        let b = part_mask(&self.script, self.masks, n, 2);
        let c = part_mask(&self.script, self.masks, n, 3);
        a | (b | c)
    }

    // The mask of node n, which is a sum: that of both its variables.
    fn sum_mask(&self, n: usize) -> u32
        requires { Ready self.now n × (kind_of (node_word self.now.script.bytes.now n 0) ≡ Sum) }
        ensures { MaskIs self.now n result }
    {
        let left = self.name_mask(2 * n);
        left | self.name_mask(2 * n + 1)
    }

    // The mask of node n.
    pub fn mask_of(&self, n: usize) -> u32
        requires { Ready self.now n }
        ensures { MaskIs self.now n result }
    {
        match kind_of(record_word(self.script.bytes, Section::Nodes, n, 0)) {
            Kind::Variable | Kind::Select => self.name_mask(2 * n),
            Kind::Update | Kind::Call => self.use_mask(n, 3),
            Kind::Let => self.let_mask(n),
            Kind::Cast => part_mask(&self.script, self.masks, n, 2),
            Kind::Fork => self.fork_mask(n),
            Kind::Lock => self.use_mask(n, 2),
            Kind::Sum => self.sum_mask(n),
            Kind::Null | Kind::New | Kind::Constant | Kind::Unknown => 0,
        }
    }
}

// The mark of node n after one more span: 1 if it is a fork whose asyncs share a variable of the span, else as before.
pub fn mark_of(script: &Script, masks: &[u32], n: usize, before: u16) -> u16
    requires { (n < count_of script.now.bytes.now nodes) × (length masks.now ≡ NODES) }
    ensures by_index { (facts : List ℕ) (start : ℕ) →
        Along (FreeMask script.now.bytes.now facts start) (mask_at masks.now) n (count_of script.now.bytes.now nodes) →
        ForkMark script.now.bytes.now facts start n before → ForkMark script.now.bytes.now facts (start + SPAN) n result }
    ensures value { (IsFork script.now.bytes.now n → ⊥) → result ≡ before }
{
    let Kind::Fork = kind_of(record_word(script.bytes, Section::Nodes, n, 0)) else {
        return before;
    };
    let a = part_mask(script, masks, n, 1);
    let b = part_mask(script, masks, n, 2);
    if a & b == 0 {
        return before;
    }
    1
}
