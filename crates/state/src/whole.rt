// A position as a value, read and written; and the tree by value, taken out of the block and written back.
ghost use Rattle.std.specs.Prelude.{◌≡◌, List, [], ◌∷◌, ◌++◌, map, ℕ, ◌+◌, ◌*◌, ◌<◌, ◌≤◌, length, get_or, set};
ghost use Rattle.std.proofs.lemmas.List.Edits.{sets};
ghost use Rattle.words.specs.Word.{bytes};
ghost use Rattle.limits.specs.Limits.{BLOCK, POSITIONS};
ghost use Rattle.machine.specs.Config as machine;
ghost use Rattle.block.specs.declared.Area.TheVariants.{Positions};
ghost use Rattle.block.specs.Layout.{width, begins, counted};
ghost use Rattle.block.specs.Values.{value_words, Storable};
ghost use Rattle.block.specs.Block.{position_words, Parts, laid};
ghost use Rattle.tree.specs.declared.Tree as threads;
ghost use Rattle.tree.specs.Entries.{root_entry, blank, used, Bounded, result_of, Worded};
ghost use Rattle.state.specs.Positions.{cell_from, entry_at, Taken, row_at, with_positions};

use block::{Area, Layout};
use limits::Limits;
use machine::Value;
use tree::{Cell, Entry, Tree};

// What stands at a position, by its words.
fn cell_of(kind: u16, node: u16, env: u16, value: Value) -> Cell
    ensures { result ≡ cell_from kind node env value }
{
    match kind {
        Layout::RUNNING => Cell::Running(node, env),
        Layout::RETURNING => Cell::Returning(value),
        Layout::JOIN => Cell::Join(node, env),
        _ => Cell::Failed,
    }
}

// Position i of the block.
pub fn entry_at(block: &[u8; Limits::BLOCK], i: usize) -> Entry
    requires { i < POSITIONS }
    ensures { (result ≡ entry_at block.now i) × Storable (result_of result.cell) }
{
    let kind = areas::word(block, Area::Positions, i, Layout::KIND);
    let node = areas::word(block, Area::Positions, i, Layout::NODE);
    let env = areas::word(block, Area::Positions, i, Layout::ENV);
    let result = areas::value(block, Area::Positions, i, Layout::RESULT);
    let frames = areas::word(block, Area::Positions, i, Layout::WAITING);
    Entry {
        cell: cell_of(kind, node, env, result),
        frames,
    }
}

// The tree of the block.
pub fn take_tree(block: &[u8; Limits::BLOCK]) -> Tree
    requires { counted block.now Positions ≤ POSITIONS }
    ensures { Taken block.now result }
{
    let n = areas::count(block, Area::Positions);
    let blank = Entry {
        cell: Cell::Failed,
        frames: 0,
    };
    let mut out = [blank; Limits::POSITIONS];
    for i in 0..n {
        out[i] = entry_at(block, i);
    }
    Tree {
        entries: out,
        len: n,
    }
}

// The words of a position, one after the other.
fn position_row(
    kind: u16,
    node: u16,
    env: u16,
    v: Value,
    frames: u16,
) -> [u16; Layout::POSITION_WIDTH]
    ensures { result ≡ kind ∷ node ∷ env ∷ (value_words v ++ frames ∷ []) }
{
    let w = value_words::value_words(v);
    [kind, node, env, w[0], w[1], w[2], frames]
}

// The words of a position.
fn row_of(x: Entry) -> [u16; Layout::POSITION_WIDTH]
    ensures { (length result ≡ width Positions) × ((t : machine.Tree) → x ≡ root_entry t → result ≡ position_words t) }
{
    let c = x.cell;
    match c {
        Cell::Failed => position_row(Layout::FAILED, 0, 0, Value::Null, x.frames),
        Cell::Running(node, env) => position_row(Layout::RUNNING, node, env, Value::Null, x.frames),
        Cell::Returning(v) => position_row(Layout::RETURNING, 0, 0, v, x.frames),
        Cell::Join(node, env) => position_row(Layout::JOIN, node, env, Value::Null, x.frames),
    }
}

// Puts the words of record i of the positions.
fn put_row(block: &mut [u8; Limits::BLOCK], i: usize, row: [u16; Layout::POSITION_WIDTH])
    requires { (i < POSITIONS) × (length row ≡ width Positions) }
    ensures { (ws : List ℕ) → block.old ≡ bytes ws → block.new ≡ bytes (sets ws (begins Positions + width Positions * i) row) }
{
    for j in 0..Layout::POSITION_WIDTH {
        areas::put(block, Area::Positions, i, j, row[j]);
    }
}

// Puts x as position i.
pub fn put_entry(block: &mut [u8; Limits::BLOCK], i: usize, x: Entry)
    requires { (i < POSITIONS) × Storable (result_of x.cell) }
    ensures { (p : Parts) (t : machine.Tree) →
        block.old ≡ bytes (laid p) →
        i < length p.positions →
        x ≡ root_entry t →
        block.new ≡ bytes (laid (with_positions p (set p.positions i t))) }
{
    let row = row_of(x);
    put_row(block, i, row);
}

// The words of record i of the positions of a tree that has `len`: those of its entry x, or zeros where the tree has no such position.
fn row_at(x: Entry, i: usize, len: usize) -> [u16; Layout::POSITION_WIDTH]
    ensures { (length result ≡ width Positions) ×
        ((self : threads.Tree) (ts : List machine.Tree) →
        Bounded self →
        map root_entry ts ≡ used self →
        len ≡ self.len →
        x ≡ get_or self.entries i blank →
        result ≡ row_at ts i) }
{
    if len <= i {
        return [0; Layout::POSITION_WIDTH];
    }
    row_of(x)
}

// How many records of the positions to write for a tree: those that it has, and those that the block has.
fn rows_of(block: &[u8; Limits::BLOCK], len: usize) -> usize
    requires { (counted block.now Positions ≤ POSITIONS) × (len ≤ POSITIONS) }
    ensures { (counted block.now Positions ≤ result) × (len ≤ result) × (result ≤ POSITIONS) }
{
    areas::count(block, Area::Positions).max(len)
}

// Writes the tree into the block: every record that the tree has or the block had, and their count. All records after them are zeros.
pub fn put_tree(block: &mut [u8; Limits::BLOCK], tree: Tree)
    requires { (counted block.old Positions ≤ POSITIONS) × Bounded tree × Worded (used tree) }
    ensures { (p : Parts) (ts : List machine.Tree) →
        block.old ≡ bytes (laid p) →
        map root_entry ts ≡ used tree →
        block.new ≡ bytes (laid (with_positions p ts)) }
{
    let len = tree.len;
    let n = rows_of(block, len);
    for i in 0..n {
        let row = row_at(tree.entries[i], i, len);
        put_row(block, i, row);
    }
    areas::put_count(block, Area::Positions, len as u16);
}
