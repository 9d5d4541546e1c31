// The words of a value.
#![tactic(auto)]

ghost use Rattle.std.specs.Prelude.{◌≡◌};
ghost use Rattle.block.specs.Values.{value_words};

use block::Layout;
use integers::{high_word, low_word};
use machine::Value;

// What a value is, a low word and a high word.
pub fn value_words(v: Value) -> [u16; Layout::VALUE]
    ensures { result ≡ value_words v }
{
    match v {
        Value::Null => [Layout::NULL, 0, 0],
        Value::Ref(o) => [Layout::REF, o, 0],
        Value::Int(z) => {
            let low = low_word(z);
            let high = high_word(z);
            [Layout::INT, low, high]
        }
    }
}
