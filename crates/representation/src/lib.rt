// The representation of a configuration in a block, word by word: which bytes are a block, and what a change of a record does to them.
#![tactic(auto)]
