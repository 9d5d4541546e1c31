// No code: what stands at the offsets of a text's tokens.
#![tactic(auto)]
