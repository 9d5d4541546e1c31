// The pass over the tokens.
ghost use Rattle.std.specs.Prelude.{◌≡◌, List, ◌+◌, ◌<◌, IfOk, length, drop};
ghost use Rattle.grammar.specs.Tokens.{Lexeme};
ghost use Rattle.grammar.specs.Faults.{marked_by, outside_test};
ghost use Rattle.bounds.specs.Places.{RECORDS, IndexIs};
ghost use Rattle.bounds.specs.Counting.{IntegersSpelt, CountedAs, marked_at};

use crate::Counts;
use crate::begun::section_begun;
use crate::index::put_place;
use token_words::Roles;
use tokens::{Tokens, magnitude_at};

// Minus this is the least integer.
const HALF: u32 = 2147483648;

// Does token i begin an integer outside the range?
fn is_outside(tokens: &Tokens, i: usize) -> bool
    requires { i < length tokens.now.roles.now }
    ensures { (ls : List Lexeme) → IntegersSpelt tokens.now.text.bytes.now tokens.now.roles.now tokens.now.offsets.now (length tokens.now.roles.now) ls →
        result ≡ outside_test (marked_at (marked_by tokens.now.roles.now ls) i) (drop (i + 1) (marked_by tokens.now.roles.now ls)) }
{
    let text = tokens.text.bytes;
    match tokens.roles[i] {
        Roles::INTEGER => HALF <= magnitude_at(text, tokens.offsets[i] as usize),
        Roles::NEGATIVE => match tokens.offsets.get(i + 1) {
            Some(at) => HALF < magnitude_at(text, *at as usize),
            None => false,
        },
        _ => false,
    }
}

// The counts of all sections, and the index of all records; or the first token at fault.
pub fn count_records(tokens: &Tokens, index: &mut [u16]) -> Result<Counts, usize>
    requires { length index.old ≡ RECORDS }
    ensures counted_as { (ls : List Lexeme) → IntegersSpelt tokens.now.text.bytes.now tokens.now.roles.now
        tokens.now.offsets.now (length tokens.now.roles.now) ls →
        CountedAs (marked_by tokens.now.roles.now ls) result }
    ensures index_is { IfOk result (λ _. IndexIs tokens.now.roles.now index.new) }
{
    let mut counts = Counts::NONE;
    for (i, role) in tokens.roles.iter().enumerate() {
        let Some(section) = section_begun(*role) else {
            continue;
        };
        if counts.is_full(section) || is_outside(tokens, i) {
            return Err(i);
        }
        put_place(&counts, index, section, i);
        counts.count_one(section);
    }
    Ok(counts)
}
