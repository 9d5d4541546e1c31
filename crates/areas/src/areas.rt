// The areas of a block: their counts, and the words of their records.
ghost use Rattle.std.specs.Prelude.{◌≡◌, [], ◌∷◌, ◌+◌, ◌<◌, length};
ghost use Rattle.words.specs.Word.{WORD};
ghost use Rattle.slices.specs.Put.{put_word};
ghost use Rattle.limits.specs.Limits.{BLOCK};
ghost use Rattle.representation.specs.Changed.{put_words};
ghost use Rattle.block.specs.Layout.{width, most, count_byte, word_byte, counted, word_in};

use block::{Area, begins_of, count_word_of, width_of};
use limits::Limits;

// The byte at which word j of record i stands.
fn word_byte(a: Area, i: usize, j: usize) -> usize
    requires { (i < most a) × (j < width a) }
    ensures { (result ≡ word_byte a i j) × (result + 1 < BLOCK) }
{
    let at = begins_of(a);
    let wide = width_of(a);
    2 * (at + wide * i + j)
}

// How many records an area has.
pub fn count(block: &[u8; Limits::BLOCK], a: Area) -> usize
    ensures { (result ≡ counted block.now a) × (result < WORD) }
{
    let n = count_word_of(a);
    slices::word_at(block, 2 * n) as usize
}

// Word j of record i of an area.
pub fn word(block: &[u8; Limits::BLOCK], a: Area, i: usize, j: usize) -> u16
    requires { (i < most a) × (j < width a) }
    ensures { (result ≡ word_in block.now a i j) × (result < WORD) }
{
    let at = word_byte(a, i, j);
    slices::word_at(block, at)
}

// Puts v as word j of record i of an area.
pub fn put(block: &mut [u8; Limits::BLOCK], a: Area, i: usize, j: usize, v: u16)
    requires { (i < most a) × (j < width a) }
    ensures { block.new ≡ put_word block.old (word_byte a i j) v }
{
    let at = word_byte(a, i, j);
    slices::put_word(block, at, v);
}

// Puts v and w as words j and j + 1 of record i of an area.
pub fn put_pair(block: &mut [u8; Limits::BLOCK], a: Area, i: usize, j: usize, v: u16, w: u16)
    requires { (i < most a) × (j + 1 < width a) }
    ensures { block.new ≡ put_words block.old (word_byte a i j) (v ∷ w ∷ []) }
{
    put(block, a, i, j, v);
    put(block, a, i, j + 1, w);
}

// Puts n as the count of an area.
pub fn put_count(block: &mut [u8; Limits::BLOCK], a: Area, n: u16)
    ensures { block.new ≡ put_word block.old (count_byte a) n }
{
    let at = count_word_of(a);
    slices::put_word(block, 2 * at, n);
}
