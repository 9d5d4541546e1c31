// The thread tree by value: an entry for each position, in preorder.
#![tactic(auto)]

ghost use Rattle.std.specs.Prelude.{◌+◌, ◌≤◌, ◌<◌, [], ◌∷◌};
ghost use Rattle.limits.specs.Limits.{POSITIONS};
ghost use Rattle.tree.specs.Entries.{used, Bounded};
ghost use Rattle.tree.specs.Parts.{Ends, Spliced, Replaced, Forked, Failing, Joined};
ghost use Rattle.tree.specs.Phases.{PhaseIs, FoldIs};

use limits::Limits;
use machine::Value;

// What stands at a position: a failed thread, a thread at a node in an environment, a thread with a value, or a join with its last part and the environment for
// it.
#[derive(Clone, Copy)]
pub enum Cell {
    Failed,
    Running(u16, u16),
    Returning(Value),
    Join(u16, u16),
}

// A position: what stands there, and how many frames wait there.
#[derive(Clone, Copy)]
pub struct Entry {
    pub cell: Cell,
    pub frames: u16,
}

// A tree: its entries, and how many there are.
#[derive(Drop)]
pub struct Tree {
    pub entries: [Entry; Limits::POSITIONS],
    pub len: usize,
}

// How a side of a join stands.
#[derive(Clone, Copy)]
pub enum Phase {
    Finished,
    Broken,
    Busy,
}

// What the move of a join comes to.
#[derive(Clone, Copy)]
pub enum Fold {
    Still,
    GoesOn,
    Fails,
}

// How a tree stands, by the entry of its root.
pub fn phase_of(x: Entry) -> Phase
    ensures { PhaseIs x result }
{
    match x.cell {
        Cell::Failed => Phase::Broken,
        Cell::Returning(_) if x.frames == 0 => Phase::Finished,
        Cell::Returning(_) => Phase::Busy,
        Cell::Running(_, _) => Phase::Busy,
        Cell::Join(_, _) => Phase::Busy,
    }
}

// The move of a join whose sides stand so.
pub fn fold_by(left: Phase, right: Phase) -> Fold
    ensures { FoldIs left right result }
{
    match (left, right) {
        (Phase::Finished, Phase::Finished) => Fold::GoesOn,
        (Phase::Broken, _) | (_, Phase::Broken) => Fold::Fails,
        _ => Fold::Still,
    }
}

impl Tree {
    // The `old` entries from `at` on taken out.
    fn removed(mut self, at: usize, old: usize) -> Tree
        requires { Bounded self × (at + old ≤ self.len) }
        ensures { Spliced self at old [] result }
    {
        let end = self.len;
        let len = end - old;
        self.entries.copy_within(at + old..end, at);
        self.len = len;
        self
    }

    // The entries x and y put in at `at`.
    fn inserted(mut self, at: usize, x: Entry, y: Entry) -> Tree
        requires { Bounded self × (at ≤ self.len) × (self.len + 2 ≤ POSITIONS) }
        ensures { Spliced self at 0 (x ∷ y ∷ []) result }
    {
        let end = self.len;
        self.entries.copy_within(at..end, at + 2);
        self.entries[at] = x;
        self.entries[at + 1] = y;
        self.len += 2;
        self
    }

    // The part at `i`, which ends before `end`, becomes the one entry x.
    fn replaced(mut self, i: usize, end: usize, x: Entry) -> Tree
        requires { Bounded self × Ends (used self) i end }
        ensures { Replaced self i x result }
    {
        self.entries[i] = x;
        self.removed(i + 1, end - i - 1)
    }

    // The thread at `i` becomes a join of threads at the nodes a and b, which goes on at c.
    pub fn forked(mut self, i: usize, a: u16, b: u16, c: u16, env: u16) -> Tree
        requires { Bounded self × (i < self.len) × (self.len + 2 ≤ POSITIONS) }
        ensures { Forked self i a b c env result }
    {
        let x = self.entries[i];
        self.entries[i] = Entry {
            cell: Cell::Join(c, env),
            frames: x.frames,
        };
        let left = Entry {
            cell: Cell::Running(a, env),
            frames: 0,
        };
        let right = Entry {
            cell: Cell::Running(b, env),
            frames: 0,
        };
        self.inserted(i + 1, left, right)
    }

    // The part at `i`, which ends before `end`, becomes failed, and all beneath is dropped.
    pub fn failed(self, i: usize, end: usize) -> Tree
        requires { Bounded self × Ends (used self) i end }
        ensures { Failing self i result }
    {
        self.replaced(
            i,
            end,
            Entry {
                cell: Cell::Failed,
                frames: 0,
            },
        )
    }

    // The join at `i`, which ends before `end`, goes on as a thread, at its last part and with its frames; any other tree is handed back as it is.
    pub fn joined(self, i: usize, end: usize) -> Tree
        requires { Bounded self × Ends (used self) i end }
        ensures { Joined self i result }
    {
        let x = self.entries[i];
        let c = x.cell;
        let Cell::Join(a, env) = c else {
            return self;
        };
        self.replaced(
            i,
            end,
            Entry {
                cell: Cell::Running(a, env),
                frames: x.frames,
            },
        )
    }
}
