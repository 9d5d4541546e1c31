// Which forks share a variable. For a span of 32 ranks at a time, the free variables of every node are gathered from the last node to the first, as one bit
// each, and each node is visited once, however deep forks are nested.
ghost use Rattle.std.specs.Prelude.{◌≡◌, false, ℕ, ◌+◌, ◌<◌, length};
ghost use Rattle.limits.specs.Limits.{NODES};
ghost use Rattle.script.specs.declared.Section.TheVariants.{Nodes as nodes};
ghost use Rattle.script.specs.Section.{count_of, node_word};
ghost use Rattle.names.specs.Ranks.{Ranked, Indexed};
ghost use Rattle.names.specs.Facts.{Facts};
ghost use Rattle.names.specs.Filling.{Nameless};
ghost use Rattle.masks.specs.Free.{SPAN, ForkMarks, Like};

use limits::Limits;
use masks::{Gathering, SPAN, mark_of};
use script::{Kind, Section};
use sections::{count_of, kind_of, record_word};
use subtypes::Script;

// Is there a fork?
fn has_fork(script: &Script) -> bool
    ensures { result ≡ false → (n : ℕ) → n < count_of script.now.bytes.now nodes → node_word script.now.bytes.now n 0 ≡ 8 → ⊥ }
{
    let count = count_of(script.bytes, Section::Nodes);
    for n in 0..count {
        if let Kind::Fork = kind_of(record_word(script.bytes, Section::Nodes, n, 0)) {
            return true;
        }
    }
    false
}

// Marks every fork whose asyncs share a variable of the span from `start` on.
fn fill_span(script: &Script, start: usize, masks: &mut [u32], facts: &mut [u16])
    requires { (length masks.old ≡ NODES) × ((count : ℕ) × Ranked script.now.bytes.now facts.old count) × ForkMarks script.now.bytes.now start facts.old }
    ensures { Like script.now.bytes.now facts.old facts.new × ForkMarks script.now.bytes.now (start + SPAN) facts.new }
{
    for n in (0..count_of(script.bytes, Section::Nodes)).rev() {
        let gathering = Gathering {
            script: *script,
            facts,
            masks,
            start,
        };
        masks[n] = gathering.mask_of(n);
        let slot = 2 * n;
        facts[slot] = mark_of(script, masks, n, facts[slot]);
    }
}

// Marks every fork, span by span, where there are `count` ranks.
fn fill_spans(script: &Script, count: usize, masks: &mut [u32], facts: &mut [u16])
    requires { (length masks.old ≡ NODES) × Ranked script.now.bytes.now facts.old count × Indexed script.now.bytes.now facts.old ×
        ForkMarks script.now.bytes.now 0 facts.old }
    ensures { Facts script.now.bytes.now facts.new }
{
    for start in (0..count).step_by(SPAN) {
        fill_span(script, start, masks, facts);
    }
}

// Finds which forks have asyncs that share a variable: such a fork's first word in the table becomes 1. There are `count` ranks.
pub fn fill_forks(script: &Script, count: usize, facts: &mut [u16])
    requires { Ranked script.now.bytes.now facts.old count × Indexed script.now.bytes.now facts.old × Nameless script.now.bytes.now facts.old }
    ensures { Facts script.now.bytes.now facts.new }
{
    if !has_fork(script) {
        return;
    }
    let mut masks = [0u32; Limits::NODES];
    fill_spans(script, count, &mut masks, facts);
}
