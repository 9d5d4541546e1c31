// The values of a block: are their words those of a value?
ghost use Rattle.std.specs.Prelude.{◌≡◌, ◌+◌, ◌<◌, ◌≤◌, length};
ghost use Rattle.limits.specs.Limits.{BLOCK, CLASS_FIELDS, OBJECTS};
ghost use Rattle.script.specs.Asking.{Decides};
ghost use Rattle.block.specs.declared.Area.TheVariants.{Objects};
ghost use Rattle.block.specs.Layout.{VALUE, width, most, word_in};
ghost use Rattle.block.specs.Values.{ValueOk};
ghost use Rattle.representation.specs.InOrder.{FieldsInOrder};

use areas::word;
use block::{Area, Layout};
use limits::Limits;

// Are the words of record i of an area from word j on those of a value? Any two words are those of a number, an object has no high word, and null is 0.
pub fn value_in_order(block: &[u8; Limits::BLOCK], a: Area, i: usize, j: usize) -> bool
    requires { (i < most a) × (j + VALUE ≤ width a) }
    ensures { Decides (ValueOk (word_in block.now a i) j) result }
{
    let low = word(block, a, i, j + 1);
    let high = word(block, a, i, j + 2);
    match word(block, a, i, j) {
        Layout::INT => true,
        Layout::REF => high == 0,
        Layout::NULL => low == 0 && high == 0,
        _ => false,
    }
}

// Has each of the first n fields of object i a value?
pub fn fields_in_order(block: &[u8; Limits::BLOCK], i: usize, n: usize) -> bool
    requires { (i < OBJECTS) × (n ≤ CLASS_FIELDS) }
    ensures { Decides (FieldsInOrder (word_in block.now Objects i) n) result }
{
    for k in 0..n {
        if !value_in_order(
            block,
            Area::Objects,
            i,
            Layout::FIRST_FIELD + Layout::VALUE * k,
        ) {
            return false;
        }
    }
    true
}
