// No code: tables of scripts and of blocks with what the four calls and Silent answer, by computation.
#![tactic(auto)]
