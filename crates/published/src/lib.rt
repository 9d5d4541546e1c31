// The published steps, Figures 8 and 9 and appendix A.2: definitions and theorems.
#![tactic(auto)]
