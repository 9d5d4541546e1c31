// Rows put one after another.
#![tactic(auto)]

mod output;

ghost use Rattle.std.specs.Prelude.{◌≡◌, [], ◌∷◌, ◌+◌, ◌*◌, ◌≤◌, length};
ghost use Rattle.token_words.specs.Row.{row_words};
ghost use Rattle.row_bytes.specs.Written.{written, Appended};

pub use output::Output;
use slices::put_word;
use token_words::Row;

fn put_pair(file: &mut [u8], at: usize, a: u16, b: u16)
    requires { at + 4 ≤ length file.old }
    ensures { file.new ≡ written file.old at (a ∷ b ∷ []) }
{
    put_word(file, at, a);
    put_word(file, at + 2, b);
}

// Puts a row at byte `at`, and answers where it ends.
pub fn put_row(file: &mut [u8], at: usize, row: Row) -> usize
    requires { at + 2 * length (row_words row) ≤ length file.old }
    ensures { Appended file.old at file.new result (row_words row) }
{
    match row {
        Row::Two(a, b) => {
            put_pair(file, at, a, b);
            at + 4
        }
        Row::Three(a, b, c) => {
            put_pair(file, at, a, b);
            put_word(file, at + 4, c);
            at + 6
        }
        Row::Four(a, b, c, d) => {
            put_pair(file, at, a, b);
            put_pair(file, at + 4, c, d);
            at + 8
        }
    }
}
