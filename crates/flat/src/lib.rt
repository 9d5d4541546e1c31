// The machine that judges a text, on paper: what it does at each token, and that it does what the parser does.
#![tactic(auto)]

ghost use Rattle.std.specs.Prelude.{◌≡◌, ◌*◌};
ghost use Rattle.grammar.specs.Roles as roles_spec;
ghost use Rattle.flat.specs.Flat as flat_spec;

// Deeds, and the points and closers beside them. `specs/Flat.antt` says what each one is. They are numbers and no enums: it numbers them, and the judge's table
// packs them into the bits of an entry, which is read at each token.
pub const STUCK: u8 = 0;

pub const OCCURS: u8 = 2;

pub const BINDS: u8 = 3;

pub const POP: u8 = 4;

pub const LEAVE: u8 = 5;

pub const CLOSE: u8 = 6;

pub const PUSH_LET: u8 = 11;

pub const PUSH_BODY: u8 = 15;

pub const CLOSERS: u8 = 48;

pub const POINTS: u8 = 64;

pub const TOP: u8 = 0;

pub const TOP_C: u8 = 14;

// `Roles::BINDING` of token_words is the same number: neither crate needs the other, and both are equal to the one definition in grammar's Roles.
// Roles are below this number, in which a variable's binding is counted: the parameter's is 1, another's 2.
pub const BINDING: u8 = 32;

pub const OTHER: u8 = 2 * BINDING;

// The constants and the definitions are the same numbers.
pub fn agreed()
    ensures stuck { STUCK ≡ flat_spec.STUCK }
    ensures occurs { OCCURS ≡ flat_spec.OCCURS }
    ensures binds { BINDS ≡ flat_spec.BINDS }
    ensures pop { POP ≡ flat_spec.POP }
    ensures leave { LEAVE ≡ flat_spec.LEAVE }
    ensures close { CLOSE ≡ flat_spec.CLOSE }
    ensures push_let { PUSH_LET ≡ flat_spec.PUSH_LET }
    ensures push_body { PUSH_BODY ≡ flat_spec.PUSH_BODY }
    ensures closers { CLOSERS ≡ flat_spec.CLOSERS }
    ensures points { POINTS ≡ flat_spec.POINTS }
    ensures top { TOP ≡ flat_spec.TOP }
    ensures top_c { TOP_C ≡ flat_spec.TOP_C }
    ensures binding { BINDING ≡ roles_spec.BINDING }
    ensures other { OTHER ≡ roles_spec.BINDING * roles_spec.B_OTHER }
{}

// What a token does at a point: the point that comes next, the token's role, what becomes of the closers and of the parameter (the deed), and which roles of
// earlier tokens it settles: the token `back` tokens ago, whose binding stays, becomes `becomes`; the last one becomes `before`, unless that is 0.
#[derive(Clone, Copy)]
pub struct Turn {
    pub next: u8,
    pub role: u8,
    pub deed: u8,
    pub back: u8,
    pub becomes: u8,
    pub before: u8,
}
