// Questions 21, 26 and 27 in code: "Is the block a well-formed configuration of this script?", part by part.
#![tactic(auto)]

mod examine;

pub use examine::well_formed;
