// Why a text is refused.
ghost use Rattle.std.specs.Prelude.{◌≡◌, ◌<◌, length, get_or};
ghost use Rattle.ask_limits.specs.Reading.{number_of_error};

use tokens::Tokens;

// "Errors: 34", "35, after 34", "36".
#[derive(Clone, Copy)]
pub enum ReadError {
    NoGrammar = 34,
    NoDeclaration = 35,
    NoRoom = 36,
}

impl ReadError {
    pub fn number(self) -> u16
        ensures { result ≡ number_of_error self }
    {
        self as u16
    }
}

// What is at fault, and where: at most at the longest text's end, which takes 32 bits.
#[derive(Clone, Copy)]
pub struct ReadRefusal {
    pub error: ReadError,
    pub place: u32,
}

impl ReadRefusal {
    // "the place is the first faulty token's offset"
    pub fn at_token(error: ReadError, tokens: &Tokens, i: usize) -> ReadRefusal
        requires { i < length tokens.now.roles.now }
        ensures { result ≡ record { error = error; place = get_or tokens.now.offsets.now i 0 } }
    {
        ReadRefusal {
            error,
            place: u32::from(tokens.offsets[i]),
        }
    }
}
