// The frames of a block: read, written, one more or fewer at the end, and put in or taken out between others.
ghost use Rattle.std.specs.Prelude.{◌≡◌, [], ◌∷◌, ◌++◌, ◌+◌, ◌<◌, ◌≤◌, length, get_or, set, take, drop};
ghost use Rattle.words.specs.Word.{bytes};
ghost use Rattle.limits.specs.Limits.{BLOCK, FRAMES};
ghost use Rattle.machine.specs.declared.Frame.TheVariants.{Awaits as awaits};
ghost use Rattle.block.specs.declared.Area.TheVariants.{Frames};
ghost use Rattle.representation.specs.Changed.{put_words, with_frames};
ghost use Rattle.block.specs.Layout.{word_byte, counted, KIND, NODE, ENV};
ghost use Rattle.block.specs.Block.{Parts, frame_words, laid};
ghost use Rattle.block.specs.Decode.{frame_of};
ghost use Rattle.areas.specs.Shifts.{raised, lowered};

use crate::areas::{count, put, put_count, put_pair, word};
use block::{Area, Layout};
use limits::Limits;
use machine::Frame;

// The words of a frame: what it is, its node or object, and its environment, or 0.
fn frame_words(f: Frame) -> [u16; Layout::FRAME_WIDTH]
    ensures { result ≡ frame_words f }
{
    match f {
        Frame::Awaits(n, e) => [Layout::AWAITS, n, e],
        Frame::Casts(n) => [Layout::CASTS, n, 0],
        Frame::Locks(o) => [Layout::LOCKS, o, 0],
    }
}

// The frame that three words say.
fn frame_of(kind: u16, x: u16, y: u16) -> Frame
    ensures { result ≡ frame_of (kind ∷ x ∷ y ∷ []) }
{
    if kind == Layout::AWAITS {
        return Frame::Awaits(x, y);
    }
    if kind == Layout::CASTS {
        return Frame::Casts(x);
    }
    Frame::Locks(x)
}

// Frame i.
pub fn frame(block: &[u8; Limits::BLOCK], i: usize) -> Frame
    requires { i < FRAMES }
    ensures { (p : Parts) → block.now ≡ bytes (laid p) → i < length p.frames → result ≡ get_or p.frames i (awaits 0 0) }
{
    let kind = word(block, Area::Frames, i, Layout::KIND);
    let x = word(block, Area::Frames, i, Layout::NODE);
    let y = word(block, Area::Frames, i, Layout::ENV);
    frame_of(kind, x, y)
}

// Puts the words of frame i.
fn put_row(block: &mut [u8; Limits::BLOCK], i: usize, kind: u16, x: u16, y: u16)
    requires { i < FRAMES }
    ensures { block.new ≡ put_words block.old (word_byte Frames i KIND) (kind ∷ x ∷ y ∷ []) }
{
    put_pair(block, Area::Frames, i, Layout::KIND, kind, x);
    put(block, Area::Frames, i, Layout::ENV, y);
}

// Puts f as frame i.
pub fn put_frame(block: &mut [u8; Limits::BLOCK], i: usize, f: Frame)
    requires { i < FRAMES }
    ensures block_after { block.new ≡ put_words block.old (word_byte Frames i KIND) (frame_words f) }
    ensures block_after_2 { (p : Parts) →
        block.old ≡ bytes (laid p) →
        i < length p.frames →
        block.new ≡ bytes (laid (with_frames p (set p.frames i f))) }
{
    let [kind, x, y] = frame_words(f);
    put_row(block, i, kind, x, y);
}

// One frame more, at the end.
fn add_frame(block: &mut [u8; Limits::BLOCK], f: Frame)
    requires { counted block.old Frames < FRAMES }
    ensures { (p : Parts) → block.old ≡ bytes (laid p) → block.new ≡ bytes (laid (with_frames p (p.frames ++ f ∷ []))) }
{
    let n = count(block, Area::Frames);
    put_frame(block, n, f);
    put_count(block, Area::Frames, (n + 1) as u16);
}

// The byte at which frame i stands, or at which the frames end.
fn frame_byte(i: usize) -> usize
    requires { i ≤ FRAMES }
    ensures { result ≡ word_byte Frames i KIND }
{
    2 * (Layout::FRAMES + Layout::FRAME_WIDTH * i)
}

// All but the first m of n frames taken away.
fn cut_frames(block: &mut [u8; Limits::BLOCK], m: usize, n: usize)
    requires { (m ≤ n) × (n ≤ FRAMES) }
    ensures { (p : Parts) →
        block.old ≡ bytes (laid p) →
        length p.frames ≡ n →
        block.new ≡ bytes (laid (with_frames p (take m p.frames))) }
{
    let from = frame_byte(m);
    let end = frame_byte(n);
    slices::clear(&mut block[from..end]);
    put_count(block, Area::Frames, m as u16);
}

// Of n frames, those from `at` on moved one place up, over the last.
fn shift_up(block: &mut [u8; Limits::BLOCK], at: usize, n: usize)
    requires { (at < n) × (n ≤ FRAMES) }
    ensures { (p : Parts) →
        block.old ≡ bytes (laid p) →
        length p.frames ≡ n →
        block.new ≡ bytes (laid (with_frames p (raised at p.frames))) }
{
    let from = frame_byte(at);
    let end = frame_byte(n);
    slices::move_up(&mut block[from..end], 2 * Layout::FRAME_WIDTH);
}

// Of n frames, those from `at` + k on moved k places down.
fn shift_down(block: &mut [u8; Limits::BLOCK], at: usize, k: usize, n: usize)
    requires { (at + k ≤ n) × (n ≤ FRAMES) }
    ensures { (p : Parts) →
        block.old ≡ bytes (laid p) →
        length p.frames ≡ n →
        block.new ≡ bytes (laid (with_frames p (lowered at k p.frames))) }
{
    let from = frame_byte(at);
    let end = frame_byte(n);
    slices::move_down(&mut block[from..end], 2 * Layout::FRAME_WIDTH * k);
}

// Puts f in as frame `at`.
pub fn insert_frame(block: &mut [u8; Limits::BLOCK], at: usize, f: Frame)
    requires { (at ≤ counted block.old Frames) × (counted block.old Frames < FRAMES) }
    ensures { (p : Parts) →
        block.old ≡ bytes (laid p) →
        block.new ≡ bytes (laid (with_frames p (take at p.frames ++ f ∷ drop at p.frames))) }
{
    let n = count(block, Area::Frames);
    add_frame(block, f);
    shift_up(block, at, n + 1);
    put_frame(block, at, f);
}

// Takes out k frames from frame `at` on.
pub fn remove_frames(block: &mut [u8; Limits::BLOCK], at: usize, k: usize)
    requires { (at + k ≤ counted block.old Frames) × (counted block.old Frames ≤ FRAMES) }
    ensures { (p : Parts) →
        block.old ≡ bytes (laid p) →
        block.new ≡ bytes (laid (with_frames p (take at p.frames ++ drop (at + k) p.frames))) }
{
    let n = count(block, Area::Frames);
    shift_down(block, at, k, n);
    cut_frames(block, n - k, n);
}
