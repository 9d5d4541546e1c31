// The three parts of a block, as request 5 names them: what is asked of objects, of bindings, and of all the rest. Definitions and theorems.
#![tactic(auto)]
