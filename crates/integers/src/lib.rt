// Signed 32-bit numbers: from their two words, to their two words, and sums whose range is tested before adding.
#![tactic(auto)]

ghost use Rattle.std.specs.Prelude.{◌≡◌, not, ◌+ℤ◌};
ghost use Rattle.words.specs.Integer.{range_test, integer, low_word, high_word};
ghost use Rattle.integers.specs.Sum.{sum_of};

// The numbers that a word has.
const WORD: u32 = 65536;

// The number of two words, "(a low word, b high word, two's complement)".
pub fn integer_of(low: u16, high: u16) -> i32
    ensures { result ≡ integer low high }
{
    let n = high as u32 * WORD + low as u32;
    n.cast_signed()
}

// The low word of a number.
pub fn low_word(z: i32) -> u16
    ensures { result ≡ low_word z }
{
    (z.cast_unsigned() % WORD) as u16
}

// The high word of a number.
pub fn high_word(z: i32) -> u16
    ensures { result ≡ high_word z }
{
    (z.cast_unsigned() / WORD) as u16
}

// Is the sum of two numbers outside the range? It is asked before adding, since such a sum cannot be made.
fn is_outside(x: i32, y: i32) -> bool
    ensures { result ≡ not (range_test (x +ℤ y)) }
{
    if y < 0 {
        return x < i32::MIN - y;
    }
    i32::MAX - y < x
}

// The sum of two numbers, or that it is outside the range.
pub fn sum_of(x: i32, y: i32) -> Option<i32>
    ensures { result ≡ sum_of x y }
{
    if is_outside(x, y) {
        return None;
    }
    let sum = x + y;
    Some(sum)
}
