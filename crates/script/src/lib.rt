// The script file on paper: its sections and questions.
#![tactic(auto)]

// The questions of document 01 that a script can get a no to, with their numbers.
#[derive(Clone, Copy)]
pub enum Question {
    Length = 1,
    Counts,
    Places,
    Interfaces,
    Owners,
    Types,
    Nodes,
    Names,
    Joins,
    Classes,
    Variables,
    Nulls,
    Members,
    Fits,
    Sharing,
}

// The sections of a script file, in the order of their bodies.
#[derive(Clone, Copy)]
pub enum Section {
    Interfaces,
    Signatures,
    Classes,
    Fields,
    Methods,
    Nodes,
}

// The kinds of nodes, in the order of their numbers, and one for every number that no kind has.
#[derive(Clone, Copy, PartialEq, Eq)]
pub enum Kind {
    Null,
    Variable,
    Select,
    Update,
    Call,
    Let,
    New,
    Cast,
    Fork,
    Lock,
    Constant,
    Sum,
    Unknown,
}

// What a word of a node is there for.
#[derive(Clone, Copy)]
pub enum Role {
    Unused,
    Variable,
    Member,
    Bound,
    NewClass,
    CastType,
    Expression,
    Constant,
    Unknown,
}

// The words a, b and c of the nodes of some kind.
#[derive(Clone, Copy)]
pub struct Shape(pub Role, pub Role, pub Role);

// A refusal: the question that gets a no, and the place.
#[derive(Clone, Copy)]
pub struct Refusal {
    pub question: Question,
    pub place: u16,
}
