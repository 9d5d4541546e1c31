// Read: a text becomes a script file.
#![tactic(auto)]

ghost use Rattle.std.specs.Prelude.{◌≡◌, ◌≤◌, length};
ghost use Rattle.limits.specs.Limits.{FILE, TEXT};
ghost use Rattle.grammar.specs.Read.{read_of};
ghost use Rattle.ask_limits.specs.Reading.{ReadAs};
ghost use Rattle.ask_limits.specs.Derived.{DerivedText};

use ask_declarations::ask_declarations;
use ask_limits::{ReadError, ReadRefusal};
use byte_table::byte_kinds;
use judge::judge;
use limits::Limits;
use tokens::{Text, Tokens};

// Arrays have room for so many tokens, or for so many bytes of a text from the second length on: the first of these that is enough. Clearing them takes time.
const TINY: usize = 256;

const SMALL: usize = 4 * TINY;

const MIDDLE: usize = 16 * SMALL;

const LONG: usize = Limits::TEXT;

// Goes on behind 34, with the first of the rooms that is enough.
fn number(tokens: &Tokens, start: usize, file: &mut [u8]) -> Result<u16, ReadRefusal>
    requires { DerivedText tokens.now start file.old }
    ensures { ReadAs result file.new (read_of tokens.now.text.bytes.now file.old) }
{
    let n = tokens.roles.len();
    if n <= TINY {
        return ask_declarations::<TINY>(tokens, start, file);
    }
    if n <= SMALL {
        return ask_declarations::<SMALL>(tokens, start, file);
    }
    if n <= MIDDLE {
        return ask_declarations::<MIDDLE>(tokens, start, file);
    }
    ask_declarations::<LONG>(tokens, start, file)
}

// 34: "the token at the place, or the text's end, fits no legal continuation". There is room for N bytes. It is never inlined: the frame of a short text's call
// then has no room for a long one, whose pages would be touched each time.
#[inline(never)]
fn read_in<const N: usize>(bytes: &[u8], file: &mut [u8]) -> Result<u16, ReadRefusal>
    requires { (length bytes.now ≤ N) × (N ≤ TEXT) × (length file.old ≡ FILE) }
    ensures { ReadAs result file.new (read_of bytes.now file.old) }
{
    let kinds = byte_kinds();
    let text = Text {
        kinds: &kinds,
        bytes,
    };
    let mut roles = [0u8; N];
    let mut offsets = [0u16; N];
    let mut closers = [0u8; N];
    let accepted = match judge(&text, &mut roles, &mut offsets, &mut closers) {
        Ok(accepted) => accepted,
        Err(misfit) => {
            return Err(ReadRefusal {
                error: ReadError::NoGrammar,
                place: misfit.place as u32,
            });
        }
    };
    let tokens = Tokens {
        text,
        roles: &roles[..accepted.tokens],
        offsets: &offsets[..accepted.tokens],
    };
    number(&tokens, accepted.start, file)
}

// Reads a text into a buffer of exactly the longest file's bytes.
pub fn read_text(text: &[u8], file: &mut [u8]) -> Result<u16, ReadRefusal>
    ensures { ReadAs result file.new (read_of text.now file.old) }
{
    if Limits::TEXT < text.len() || file.len() != Limits::FILE {
        return Err(ReadRefusal {
            error: ReadError::NoRoom,
            place: 0,
        });
    }
    if text.len() <= SMALL {
        return read_in::<SMALL>(text, file);
    }
    if text.len() <= MIDDLE {
        return read_in::<MIDDLE>(text, file);
    }
    read_in::<LONG>(text, file)
}
