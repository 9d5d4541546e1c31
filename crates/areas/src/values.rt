// Values in records: what a value is, a low word and a high word.
ghost use Rattle.std.specs.Prelude.{◌≡◌, ◌+◌, ◌<◌, ◌≤◌, length};
ghost use Rattle.limits.specs.Limits.{BLOCK};
ghost use Rattle.block.specs.Layout.{VALUE, width, most, word_byte, word_in};
ghost use Rattle.block.specs.Values.{value_words, value_in, Storable};
ghost use Rattle.representation.specs.Changed.{put_words};

use crate::areas::{put, put_pair, word};
use block::{Area, Layout};
use integers::integer_of;
use limits::Limits;
use machine::Value;
use value_words::value_words;

// The value in record i of an area from word j on.
pub fn value(block: &[u8; Limits::BLOCK], a: Area, i: usize, j: usize) -> Value
    requires { (i < most a) × (j + VALUE ≤ width a) }
    ensures { (result ≡ value_in (word_in block.now a i) j) × Storable result }
{
    let kind = word(block, a, i, j);
    if kind == Layout::REF {
        let o = word(block, a, i, j + 1);
        return Value::Ref(o);
    }
    if kind != Layout::INT {
        return Value::Null;
    }
    let low = word(block, a, i, j + 1);
    let high = word(block, a, i, j + 2);
    Value::Int(integer_of(low, high))
}

// Puts v into record i of an area from word j on.
pub fn put_value(block: &mut [u8; Limits::BLOCK], a: Area, i: usize, j: usize, v: Value)
    requires { (i < most a) × (j + VALUE ≤ width a) }
    ensures { block.new ≡ put_words block.old (word_byte a i j) (value_words v) }
{
    let w = value_words(v);
    put_pair(block, a, i, j, w[0], w[1]);
    put(block, a, i, j + 2, w[2]);
}
