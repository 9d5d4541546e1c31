// Words in lent byte slices, read and written; bytes made 0, asked to be 0, and moved.
#![tactic(auto)]

ghost use Rattle.std.specs.Prelude.{◌≡◌, true, false, ◌++◌, ◌+◌, ◌-◌, ◌<◌, ◌≤◌, length, take, drop, replicate};
ghost use Rattle.words.specs.Word.{word_at};
ghost use Rattle.slices.specs.Put.{put_word};
ghost use Rattle.slices.specs.Zero.{AllZero};

// The word that stands at byte `at`.
pub fn word_at(s: &[u8], at: usize) -> u16
    requires { at + 1 < length s.now }
    ensures { result ≡ word_at s.now at }
{
    u16::from_le_bytes([s[at], s[at + 1]])
}

// Puts the word v at byte `at`.
pub fn put_word(s: &mut [u8], at: usize, v: u16)
    requires { at + 1 < length s.old }
    ensures { s.new ≡ put_word s.old at v }
{
    let [low, high] = v.to_le_bytes();
    s[at] = low;
    s[at + 1] = high;
}

// Makes every byte 0.
pub fn clear(s: &mut [u8])
    ensures { s.new ≡ replicate (length s.old) 0 }
{
    s.fill(0);
}

// Is every byte 0? The loop has no other way out, so that the compiler can take many bytes at a time.
pub fn all_zero(s: &[u8]) -> bool
    ensures { (result ≡ true → AllZero s.now) × (result ≡ false → AllZero s.now → ⊥) }
{
    let mut seen: u8 = 0;
    for x in s {
        seen |= *x;
    }
    seen == 0
}

// Moves the bytes `by` places down, from the first on; the last `by` bytes stay as they were.
pub fn move_down(s: &mut [u8], by: usize)
    requires { by ≤ length s.old }
    ensures { s.new ≡ drop by s.old ++ drop (length s.old - by) s.old }
{
    s.copy_within(by.., 0);
}

// Moves the bytes `by` places up, over the last `by`; the first `by` bytes stay as they were.
pub fn move_up(s: &mut [u8], by: usize)
    requires { by ≤ length s.old }
    ensures { s.new ≡ take by s.old ++ take (length s.old - by) s.old }
{
    let end = s.len() - by;
    s.copy_within(..end, by);
}
