// The variables of a script by rank: small numbers for their names, so that a table with a word for each rank serves every script.
#![tactic(auto)]

mod ranks;

ghost use Rattle.std.specs.Prelude.{◌≡◌};
ghost use Rattle.names.specs.Ranks as ranks_spec;

use limits::Limits;
pub use ranks::{fill_ranks, rank_of};

// A node has two places for variables, its words a and b: place j of node n is slot 2 * n + j.
pub const SLOTS: usize = 2 * Limits::NODES;

// A rank for `this`, for the parameter, and for what stands at each slot.
pub const RANKS: usize = SLOTS + 2;

// Variables are sorted into buckets by the remainder of a sum: of the name, and of how often SPACING goes into it. So names at equal distances mostly fall into
// different ones. Both are powers of two, so that nothing is divided.
pub const BUCKETS: usize = 512;

pub const SPACING: usize = 64;

// A word for each slot: the rank of the variable that stands there, or at the first slot of a fork whether its asyncs share a variable. Then a link for each
// slot, and a word for each bucket: a slot and 1 more, or 0.
pub const FACTS: usize = SLOTS + SLOTS + BUCKETS;

// The constants and the definitions are the same numbers.
pub fn agreed()
    ensures slots { SLOTS ≡ ranks_spec.SLOTS }
    ensures ranks { RANKS ≡ ranks_spec.RANKS }
    ensures buckets { BUCKETS ≡ ranks_spec.BUCKETS }
    ensures spacing { SPACING ≡ ranks_spec.SPACING }
    ensures facts { FACTS ≡ ranks_spec.FACTS }
{}
