// The kinds of the tokens that bytes begin, in one table.
#![tactic(auto)]

ghost use Rattle.std.specs.Prelude.{◌≡◌, ◌+◌, ◌-◌, replicate};
ghost use Rattle.std.proofs.lemmas.List.Edits.{sets};
ghost use Rattle.tokens.specs.Kinds.{byte_kinds};

use tokens::{BLANK, DIGITS, NAME};

// The first and the last of bytes that begin tokens of the same kind, and that kind. Signs have their numbers, in the order of the grammar's list.
const RANGES: [(u8, u8, u8); 18] = [
    (b'0', b'9', DIGITS),
    (b'A', b'Z', NAME),
    (b'_', b'_', NAME),
    (b'a', b'z', NAME),
    (b'\t', b'\n', BLANK),
    (b'\r', b'\r', BLANK),
    (b' ', b' ', BLANK),
    (b'{', b'{', 17),
    (b'}', b'}', 18),
    (b'(', b'(', 19),
    (b')', b')', 20),
    (b':', b':', 21),
    (b',', b',', 22),
    (b'.', b'.', 23),
    (b'=', b'=', 24),
    (b';', b';', 25),
    (b'+', b'+', 26),
    (b'-', b'-', 27),
];

// Gives the bytes from `first` to `last` a kind.
fn put_range(kinds: &mut [u8; 256], first: u8, last: u8, kind: u8)
    ensures { kinds.new ≡ sets kinds.old first (replicate (last + 1 - first) kind) }
{
    for b in first..=last {
        kinds[b as usize] = kind;
    }
}

// The table. A byte that is in no range begins no token. A constant would be built anew wherever it is read, so the caller keeps it.
pub fn byte_kinds() -> [u8; 256]
    ensures { result ≡ byte_kinds }
{
    let mut kinds = [1u8; 256];
    for (first, last, kind) in RANGES {
        put_range(&mut kinds, first, last, kind);
    }
    kinds
}
