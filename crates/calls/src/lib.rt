// The four calls on byte lists: the questions about lent buffers. All else is definitions and theorems; the calls' code is in `engine`.
#![tactic(auto)]

// The questions about what is lent beside the script: whether the block is 65,536 bytes, "Is the choice list at most 4,096 bytes (Run), or the flag buffer
// exactly 63 (Offer)?" and "Is the block a well-formed configuration of this script?", which request 5 asks in three parts; in the order in which they are
// asked.
#[derive(Clone, Copy)]
pub enum LentQuestion {
    BlockLength = 20,
    BufferLength = 22,
    BlockObjects = 21,
    BlockBindings = 26,
    BlockThreads = 27,
}
