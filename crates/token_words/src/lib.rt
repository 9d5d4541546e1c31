// What the words of records are made of: what one token says, and what some tokens together say.
#![tactic(auto)]

mod behind;
mod from;
mod items;
mod leaves;
mod node;

ghost use Rattle.std.specs.Prelude.{◌≡◌};
ghost use Rattle.grammar.specs.Roles.{R_INTERFACE, R_CLASS, R_METHOD, R_SIGNATURE, R_FIELD, R_TYPE, R_UNIT, R_INT, R_NULL, R_VARIABLE, R_SELECT, R_UPDATE};
ghost use Rattle.grammar.specs.Roles.{R_DECLARED, R_METHOD_NAME, R_BINDER, R_FIELD_USED, R_METHOD_USED};
ghost use Rattle.grammar.specs.Roles.{R_CALL, R_LET, R_NEW, R_CAST, R_FORK, R_LOCK, R_INTEGER, R_SUM, R_NEGATIVE, BINDING, B_OTHER};

pub use from::ItemsFrom;
pub use items::Items;
pub use node::{Node, hop};

// Roles of tokens. The definitions of the same names say what each one is. They are numbers and no enum: a token's role and a variable's binding share the byte
// that the passes have for each token in fixed memory.
#[derive(Clone, Copy)]
pub struct Roles {}

impl Roles {
    pub const INTERFACE: u8 = 1;

    pub const CLASS: u8 = 2;

    pub const METHOD: u8 = 3;

    pub const SIGNATURE: u8 = 4;

    pub const FIELD: u8 = 5;

    pub const DECLARED: u8 = 6;

    pub const TYPE: u8 = 7;

    pub const UNIT: u8 = 8;

    pub const INT: u8 = 9;

    pub const METHOD_NAME: u8 = 10;

    pub const BINDER: u8 = 11;

    pub const FIELD_USED: u8 = 12;

    pub const METHOD_USED: u8 = 13;

    pub const NULL: u8 = 16;

    pub const VARIABLE: u8 = 17;

    pub const SELECT: u8 = 18;

    pub const UPDATE: u8 = 19;

    pub const CALL: u8 = 20;

    pub const LET: u8 = 21;

    pub const NEW: u8 = 22;

    pub const CAST: u8 = 23;

    pub const FORK: u8 = 24;

    pub const LOCK: u8 = 25;

    pub const INTEGER: u8 = 26;

    pub const SUM: u8 = 27;

    pub const NEGATIVE: u8 = 29;

    pub const BINDING: u8 = 32;

    pub const OTHER: u8 = 2;
}

// The constants and the definitions are the same numbers.
pub fn agreed()
    ensures interface { Roles.INTERFACE ≡ R_INTERFACE }
    ensures class { Roles.CLASS ≡ R_CLASS }
    ensures method { Roles.METHOD ≡ R_METHOD }
    ensures signature { Roles.SIGNATURE ≡ R_SIGNATURE }
    ensures field { Roles.FIELD ≡ R_FIELD }
    ensures declared { Roles.DECLARED ≡ R_DECLARED }
    ensures the_type { Roles.TYPE ≡ R_TYPE }
    ensures unit { Roles.UNIT ≡ R_UNIT }
    ensures int { Roles.INT ≡ R_INT }
    ensures method_name { Roles.METHOD_NAME ≡ R_METHOD_NAME }
    ensures binder { Roles.BINDER ≡ R_BINDER }
    ensures field_used { Roles.FIELD_USED ≡ R_FIELD_USED }
    ensures method_used { Roles.METHOD_USED ≡ R_METHOD_USED }
    ensures null { Roles.NULL ≡ R_NULL }
    ensures variable { Roles.VARIABLE ≡ R_VARIABLE }
    ensures select { Roles.SELECT ≡ R_SELECT }
    ensures update { Roles.UPDATE ≡ R_UPDATE }
    ensures call { Roles.CALL ≡ R_CALL }
    ensures the_let { Roles.LET ≡ R_LET }
    ensures new { Roles.NEW ≡ R_NEW }
    ensures cast { Roles.CAST ≡ R_CAST }
    ensures fork { Roles.FORK ≡ R_FORK }
    ensures lock { Roles.LOCK ≡ R_LOCK }
    ensures integer { Roles.INTEGER ≡ R_INTEGER }
    ensures sum { Roles.SUM ≡ R_SUM }
    ensures negative { Roles.NEGATIVE ≡ R_NEGATIVE }
    ensures binding { Roles.BINDING ≡ BINDING }
    ensures other { Roles.OTHER ≡ B_OTHER }
{}

// What a declaration owns: how many signatures, fields and methods come before the next one.
#[derive(Clone, Copy)]
pub struct Members {
    pub signatures: u16,
    pub fields: u16,
    pub methods: u16,
}

// The words of a record, which has two, three or four.
#[derive(Clone, Copy)]
pub enum Row {
    Two(u16, u16),
    Three(u16, u16, u16),
    Four(u16, u16, u16, u16),
}
