// Scripts as text: tokens, the grammar as derivations, and the file of a derivation. Definitions and theorems only.
#![tactic(auto)]
