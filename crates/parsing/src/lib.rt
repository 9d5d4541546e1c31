// No code: a text is parsed exactly if the grammar derives it, as its one derivation, and a stuck token is the first that no text goes on with.
#![tactic(auto)]
