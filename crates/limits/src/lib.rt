// Every limit of document 01, and the length of the block, which is document 02's (request 2), named in one place.
#![tactic(auto)]

ghost use Rattle.std.specs.Prelude.{◌≡◌};
ghost use Rattle.limits.specs.Limits.{INTERFACES, SIGNATURES, CLASSES, FIELDS, METHODS, NODES, CONTENTS, FILE, CLASS_FIELDS, BLOCK, OBJECTS, BINDINGS};
ghost use Rattle.limits.specs.Limits.{FRAMES, THREADS, POSITIONS, CHOICES, FLAGS, SILENT, TEXT};

// The limits. `specs/Limits.antt` says what each one bounds.
#[derive(Clone, Copy)]
pub struct Limits {}

impl Limits {
    pub const INTERFACES: usize = 64;

    pub const SIGNATURES: usize = 256;

    pub const CLASSES: usize = 64;

    pub const FIELDS: usize = 256;

    pub const METHODS: usize = 256;

    pub const NODES: usize = 1024;

    pub const CONTENTS: usize = 24;

    pub const FILE: usize = 13592;

    pub const CLASS_FIELDS: usize = 8;

    pub const BLOCK: usize = 65536;

    pub const OBJECTS: usize = 256;

    pub const BINDINGS: usize = 2048;

    pub const FRAMES: usize = 2048;

    pub const THREADS: usize = 32;

    pub const POSITIONS: usize = 2 * Self::THREADS - 1;

    pub const CHOICES: usize = 4096;

    pub const FLAGS: usize = Self::POSITIONS;

    pub const SILENT: usize = 1024;

    pub const TEXT: usize = 65536;
}

// The constants and the definitions are the same numbers.
pub fn agreed()
    ensures interfaces { Limits.INTERFACES ≡ INTERFACES }
    ensures signatures { Limits.SIGNATURES ≡ SIGNATURES }
    ensures classes { Limits.CLASSES ≡ CLASSES }
    ensures fields { Limits.FIELDS ≡ FIELDS }
    ensures methods { Limits.METHODS ≡ METHODS }
    ensures nodes { Limits.NODES ≡ NODES }
    ensures contents { Limits.CONTENTS ≡ CONTENTS }
    ensures file { Limits.FILE ≡ FILE }
    ensures class_fields { Limits.CLASS_FIELDS ≡ CLASS_FIELDS }
    ensures block { Limits.BLOCK ≡ BLOCK }
    ensures objects { Limits.OBJECTS ≡ OBJECTS }
    ensures bindings { Limits.BINDINGS ≡ BINDINGS }
    ensures frames { Limits.FRAMES ≡ FRAMES }
    ensures threads { Limits.THREADS ≡ THREADS }
    ensures positions { Limits.POSITIONS ≡ POSITIONS }
    ensures choices { Limits.CHOICES ≡ CHOICES }
    ensures flags { Limits.FLAGS ≡ FLAGS }
    ensures silent { Limits.SILENT ≡ SILENT }
    ensures text { Limits.TEXT ≡ TEXT }
{}
