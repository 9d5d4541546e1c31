// What a word is: one that the grammar spells out, or a name.
#![tactic(auto)]

ghost use Rattle.std.specs.Prelude.{◌≡◌, ◌+◌, ◌*◌, ◌%◌, drop};
ghost use Rattle.grammar.specs.Tokens.{fixed_words};
ghost use Rattle.word_kinds.specs.Kind.{K_NAME, token_kind};
ghost use Rattle.word_kinds.specs.Runs.{word_from};
ghost use Rattle.word_kinds.specs.Words.{word_lexeme, WordAt, WORD_SLOTS, fixed_at, SpelledIs};

// The kind of a name: a word or sign that the grammar spells out has its number, below it.
pub const NAME: u8 = 28;

// Words that the grammar spells out have so many slots.
const SLOTS: usize = 32;

// The constants and the definitions are the same numbers.
pub fn agreed()
    ensures name { NAME ≡ K_NAME }
    ensures slots { SLOTS ≡ WORD_SLOTS }
{}

// A word that the grammar spells out, and its number.
#[derive(Clone, Copy)]
struct Spelled(&'static [u8], u8);

// No two words that the grammar spells out have the same slot.
fn slot_of(first: u8, last: u8) -> usize
    ensures { result ≡ (first + 2 * last) % WORD_SLOTS }
{
    (first as usize + 2 * (last as usize)) % SLOTS
}

// The word that has this slot, in the order of the grammar's list; where none has, no letters, with a name's number. That is no Option: no word is without
// letters, so a name needs no case of its own.
#[tactic(auto, unfolding(crate::specs::Words::fixed_at, grammar::specs::Tokens::fixed_words))]
fn candidate(slot: usize) -> Spelled
    ensures { SpelledIs (fixed_at fixed_words slot) result }
{
    match slot {
        19 => Spelled(b"interface", 2),
        11 => Spelled(b"extends", 3),
        9 => Spelled(b"class", 4),
        15 => Spelled(b"implements", 5),
        16 => Spelled(b"def", 6),
        20 => Spelled(b"let", 7),
        5 => Spelled(b"in", 8),
        28 => Spelled(b"new", 9),
        22 => Spelled(b"finish", 10),
        7 => Spelled(b"async", 11),
        2 => Spelled(b"lock", 12),
        6 => Spelled(b"null", 13),
        29 => Spelled(b"Unit", 14),
        17 => Spelled(b"Int", 15),
        26 => Spelled(b"this", 16),
        _ => Spelled(b"", NAME),
    }
}

// The kind of the word from `start` to `end`. A `match` on the word itself was tried: the arm of no word is then proved 68 times, once for each place where a
// byte may differ.
pub fn word_kind(text: &[u8], start: usize, end: usize) -> u8
    requires { WordAt text.now start end }
    ensures { result ≡ token_kind (word_lexeme (word_from (drop start text.now))) }
{
    let word = &text[start..end];
    let Spelled(letters, kind) = candidate(slot_of(text[start], text[end - 1]));
    if word == letters { kind } else { NAME }
}
