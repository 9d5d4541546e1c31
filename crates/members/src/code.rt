// A script with all tables about it that look-ups are lent.
ghost use Rattle.names.specs.Facts.{Facts};

use subtypes::Script;

// A script with its table of starts, and with the table of facts about its nodes: the ranks of the variables that they name, and which asyncs share one.
#[derive(Clone, Copy)]
pub struct Code<'a> {
    pub script: Script<'a>,
    pub facts: &'a [u16],
    pub ghost facts_are: { ∥ Facts script.bytes.now facts.now ∥₁ },
}
