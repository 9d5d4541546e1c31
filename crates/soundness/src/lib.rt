// No code: that a well-formed configuration stays so, moves as long as it can, and ends as document 01 says, for the crates below.
#![tactic(auto)]
