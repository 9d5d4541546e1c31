// The layout of a block in numbers: `specs/Layout.antt` and `specs/Values.antt` say what each one is.
ghost use Rattle.std.specs.Prelude.{◌≡◌, ◌<◌};
ghost use Rattle.block.specs.Layout.{WORDS, HEADER, count_word, width, most, begins, END, VALUE, CLASS, SHUT, FIRST_FIELD, NAME, TYPE, BOUND, LINK, KIND};
ghost use Rattle.block.specs.Layout.{NODE, OBJECT, ENV, RESULT, WAITING, RUNNING, RETURNING, FAILED, JOIN, AWAITS, CASTS, LOCKS};
ghost use Rattle.block.specs.Values.{NULL, REF, INT};

use crate::Area;
use limits::Limits;

#[derive(Clone, Copy)]
pub struct Layout {}

impl Layout {
    pub const VALUE: usize = 3;

    pub const CLASS: usize = 0;

    pub const SHUT: usize = 1;

    pub const FIRST_FIELD: usize = 2;

    pub const NAME: usize = 0;

    pub const TYPE: usize = 1;

    pub const BOUND: usize = 2;

    pub const LINK: usize = Self::BOUND + Self::VALUE;

    pub const KIND: usize = 0;

    pub const NODE: usize = 1;

    pub const OBJECT: usize = Self::NODE;

    pub const ENV: usize = 2;

    pub const RESULT: usize = 3;

    pub const WAITING: usize = Self::RESULT + Self::VALUE;

    pub const RUNNING: u16 = 1;

    pub const RETURNING: u16 = 2;

    pub const FAILED: u16 = 3;

    pub const JOIN: u16 = 4;

    pub const AWAITS: u16 = 1;

    pub const CASTS: u16 = 2;

    pub const LOCKS: u16 = 3;

    pub const NULL: u16 = 0;

    pub const REF: u16 = 1;

    pub const INT: u16 = 2;

    // The words of a record of each area.
    pub const OBJECT_WIDTH: usize = Self::FIRST_FIELD + Self::VALUE * Limits::CLASS_FIELDS;

    pub const BINDING_WIDTH: usize = Self::LINK + 1;

    pub const POSITION_WIDTH: usize = Self::WAITING + 1;

    pub const FRAME_WIDTH: usize = Self::ENV + 1;

    // Where each area begins, and the first word after the last.
    pub const OBJECTS: usize = 4;

    pub const BINDINGS: usize = Self::OBJECTS + Self::OBJECT_WIDTH * Limits::OBJECTS;

    pub const POSITIONS: usize = Self::BINDINGS + Self::BINDING_WIDTH * Limits::BINDINGS;

    pub const FRAMES: usize = Self::POSITIONS + Self::POSITION_WIDTH * Limits::POSITIONS;

    pub const END: usize = Self::FRAMES + Self::FRAME_WIDTH * Limits::FRAMES;

    pub const WORDS: usize = Limits::BLOCK / 2;
}

// The constants and the definitions are the same numbers.
pub fn agreed()
    ensures value { Layout.VALUE ≡ VALUE }
    ensures class { Layout.CLASS ≡ CLASS }
    ensures shut { Layout.SHUT ≡ SHUT }
    ensures first_field { Layout.FIRST_FIELD ≡ FIRST_FIELD }
    ensures name { Layout.NAME ≡ NAME }
    ensures the_type { Layout.TYPE ≡ TYPE }
    ensures bound { Layout.BOUND ≡ BOUND }
    ensures link { Layout.LINK ≡ LINK }
    ensures kind { Layout.KIND ≡ KIND }
    ensures node { Layout.NODE ≡ NODE }
    ensures object { Layout.OBJECT ≡ OBJECT }
    ensures env { Layout.ENV ≡ ENV }
    ensures result { Layout.RESULT ≡ RESULT }
    ensures waiting { Layout.WAITING ≡ WAITING }
    ensures running { Layout.RUNNING ≡ RUNNING }
    ensures returning { Layout.RETURNING ≡ RETURNING }
    ensures failed { Layout.FAILED ≡ FAILED }
    ensures join { Layout.JOIN ≡ JOIN }
    ensures awaits { Layout.AWAITS ≡ AWAITS }
    ensures casts { Layout.CASTS ≡ CASTS }
    ensures locks { Layout.LOCKS ≡ LOCKS }
    ensures null { Layout.NULL ≡ NULL }
    ensures the_ref { Layout.REF ≡ REF }
    ensures int { Layout.INT ≡ INT }
    ensures end { Layout.END ≡ END }
    ensures words { Layout.WORDS ≡ WORDS }
{}

// An area has four numbers, and the counts do not even stand in the areas' order, so none of the four is its discriminant.
// The word of the header that has an area's count.
pub fn count_word_of(a: Area) -> usize
    ensures { (result ≡ count_word a) × (result < HEADER) }
{
    match a {
        Area::Objects => 0,
        Area::Bindings => 1,
        Area::Frames => 2,
        Area::Positions => 3,
    }
}

// The words of a record.
pub fn width_of(a: Area) -> usize
    ensures { result ≡ width a }
{
    match a {
        Area::Objects => Layout::OBJECT_WIDTH,
        Area::Bindings => Layout::BINDING_WIDTH,
        Area::Positions => Layout::POSITION_WIDTH,
        Area::Frames => Layout::FRAME_WIDTH,
    }
}

// The most records.
pub fn most_of(a: Area) -> usize
    ensures { result ≡ most a }
{
    match a {
        Area::Objects => Limits::OBJECTS,
        Area::Bindings => Limits::BINDINGS,
        Area::Positions => Limits::POSITIONS,
        Area::Frames => Limits::FRAMES,
    }
}

// The word at which an area begins.
pub fn begins_of(a: Area) -> usize
    ensures { result ≡ begins a }
{
    match a {
        Area::Objects => Layout::OBJECTS,
        Area::Bindings => Layout::BINDINGS,
        Area::Positions => Layout::POSITIONS,
        Area::Frames => Layout::FRAMES,
    }
}
