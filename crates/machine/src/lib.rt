// The machine: definitions and theorems, and the enums that they share with the code.
#![tactic(auto)]

// v ::= null | ι, and a number
#[derive(Clone, Copy)]
pub enum Value {
    Null,
    Ref(u16),
    Int(i32),
}

// What waits for a value: a write, call or let with its node and environment, a cast with its node alone, a lock with its object.
#[derive(Clone, Copy)]
pub enum Frame {
    Awaits(u16, u16),
    Casts(u16),
    Locks(u16),
}

// No Option: where nothing can be expected, because a frame does not fit, the answer is None, and Option<Option<u16>> would not tell the two apart by name.
// What is expected of a value, the type t in Γ ⊢ T : t: any, since WF-T-ASYNC lets its sides have any types ("to any type at an async"), or a type and those
// below it ("the start's type or below").
#[derive(Clone, Copy)]
pub enum Want {
    Any,
    Upto(u16),
}

// The four stores of a block, each of which a move can find full: "4 objects, 5 bindings, 6 frames, 7 threads when the chosen move needs more places than that
// store has left".
#[derive(Clone, Copy)]
pub enum Store {
    Objects = 4,
    Bindings,
    Frames,
    Threads,
}

// How a run ends: "1 the root is a finished thread, 2 the root is a failed thread, 3 neither and no position can move".
#[derive(Clone, Copy)]
pub enum Ending {
    Finished = 1,
    Failed,
    Deadlocked,
}

// Why a Run stops: its choices are spent, it has ended, or a store is full for the chosen move.
#[derive(Clone, Copy)]
pub enum Stop {
    Spent,
    Ended(Ending),
    Full(Store),
}
