// The tokens of a text whose names are linked.
#![tactic(auto)]

ghost use Rattle.std.specs.Prelude.{length};
ghost use Rattle.numbering.specs.Chains.{ChainsAre};

use crate::Firsts;
use tokens::Tokens;

// Each name leads to the next one of its sort, so that no pass looks at other tokens. The last leads to itself: an Option for each would take more memory, and
// the number of all tokens is no u16.
#[derive(Clone, Copy)]
pub struct Linked<'a> {
    pub tokens: Tokens<'a>,
    pub chain: &'a [u16],
    pub firsts: Firsts,
    pub ghost chains_are: { ChainsAre tokens.roles.now (length tokens.roles.now) chain.now firsts },
}
