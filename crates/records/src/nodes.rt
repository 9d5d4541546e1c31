// Questions 4, 6 and 7: each record by itself, and the lowest that is at fault.
ghost use Rattle.std.specs.Prelude.{◌≡◌, ℕ, Bool, [], ◌∷◌, ◌<◌, length, get_or, eqb};
ghost use Rattle.script.specs.declared.Role.{Role};
ghost use Rattle.script.specs.Section.{size_of, count_of, node_word};
ghost use Rattle.script.specs.Syntax.{parts};
ghost use Rattle.script.specs.Reading.{kind_of, shape_of, shape_at, view_at};
ghost use Rattle.script.specs.Asking.{lowest_in};
ghost use Rattle.script.specs.Questions.{earlier_test, interface_test, interfaces_test, type_test, interface_type_test, class_type_test};
ghost use Rattle.script.specs.Questions.{type_word_test, words_test};
ghost use Rattle.script.specs.Questions.{two_types_test, types_test, word_test, parts_from, uses_in, due_uses, node_test, nodes_test};
ghost use Rattle.sections.specs.Laid.{passed_of};
ghost use Rattle.records.specs.Uses.{part_in, body_words, Counted, Adds};

use limits::Limits;
use script::{Kind, Role, Section, Shape};
use sections::{File, kind_of};

// Is t the type of an interface before record i?
fn earlier_fits(i: usize, t: u16) -> bool
    ensures { result ≡ earlier_test i t }
{
    0 < t && t as usize <= i
}

// 4. Is an interface record of form 0 or 1, with 0 or earlier parents?
#[tactic(auto, unfolding(script::specs::Questions::interface_test))]
fn interface_fits(file: &File, i: usize) -> bool
    requires { i < count_of file.now.bytes.now Section.Interfaces }
    ensures { result ≡ interface_test file.now.bytes.now i }
{
    let a = file.record_word(Section::Interfaces, i, 1);
    let b = file.record_word(Section::Interfaces, i, 2);
    match file.record_word(Section::Interfaces, i, 0) {
        0 => b == 0,
        1 => earlier_fits(i, a) && earlier_fits(i, b),
        _ => false,
    }
}

// Is a word a type? The last is Int.
#[tactic(auto, unfolding(script::specs::Questions::type_test))]
fn type_fits(file: &File, t: u16) -> bool
    ensures { result ≡ type_test file.now.bytes.now t }
{
    t as usize <= file.count_of(Section::Interfaces) + file.count_of(Section::Classes) + 1
}

// Is a word the type of an interface?
#[tactic(auto, unfolding(script::specs::Questions::interface_type_test))]
fn interface_type_fits(file: &File, t: u16) -> bool
    ensures { result ≡ interface_type_test file.now.bytes.now t }
{
    0 < t && t as usize <= file.count_of(Section::Interfaces)
}

// Is a word the type of a class?
#[tactic(auto, unfolding(script::specs::Questions::class_type_test))]
fn class_type_fits(file: &File, t: u16) -> bool
    ensures { result ≡ class_type_test file.now.bytes.now t }
{
    let interfaces = file.count_of(Section::Interfaces);
    interfaces < t as usize && t as usize <= interfaces + file.count_of(Section::Classes)
}

// Are words 1 and 2 of a signature or method types?
fn two_types_fit(file: &File, k: Section, i: usize) -> bool
    requires { (i < count_of file.now.bytes.now k) × (5 < size_of k) }
    ensures { result ≡ two_types_test file.now.bytes.now k i }
{
    type_fits(file, file.record_word(k, i, 1)) && type_fits(file, file.record_word(k, i, 2))
}

// The shape of the nodes of a kind.
fn shape_of(kind: Kind) -> Shape
    ensures { result ≡ shape_of kind }
{
    match kind {
        Kind::Null => Shape(Role::Unused, Role::Unused, Role::Unused),
        Kind::Variable => Shape(Role::Variable, Role::Unused, Role::Unused),
        Kind::Select => Shape(Role::Variable, Role::Member, Role::Unused),
        Kind::Update | Kind::Call => Shape(Role::Variable, Role::Member, Role::Expression),
        Kind::Let => Shape(Role::Bound, Role::Expression, Role::Expression),
        Kind::New => Shape(Role::NewClass, Role::Unused, Role::Unused),
        Kind::Cast => Shape(Role::CastType, Role::Expression, Role::Unused),
        Kind::Fork => Shape(Role::Expression, Role::Expression, Role::Expression),
        Kind::Lock => Shape(Role::Variable, Role::Expression, Role::Unused),
        Kind::Constant => Shape(Role::Constant, Role::Constant, Role::Unused),
        Kind::Sum => Shape(Role::Variable, Role::Variable, Role::Unused),
        Kind::Unknown => Shape(Role::Unknown, Role::Unknown, Role::Unknown),
    }
}

// The shape of node n.
fn shape_at(file: &File, n: usize) -> Shape
    requires { n < count_of file.now.bytes.now Section.Nodes }
    ensures { result ≡ shape_at file.now.bytes.now n }
{
    shape_of(kind_of(file.record_word(Section::Nodes, n, 0)))
}

// Do the words a, b and c of node n fit their roles?
fn words_fit<F: Fn(Role, u16) -> bool>(file: &File, n: usize, fits: F) -> bool
    requires node { n < count_of file.now.bytes.now Section.Nodes }
    requires callable { F.IsAlwaysCallable fits }
    ensures { (test : Role → ℕ → Bool) → ((role : Role) (w : ℕ) (fit : Bool) → F.post fits role w fit → fit ≡ test role w) →
        result ≡ words_test file.now.bytes.now test n }
{
    let Shape(a, b, c) = shape_at(file, n);
    fits(a, file.record_word(Section::Nodes, n, 1))
        && fits(b, file.record_word(Section::Nodes, n, 2))
        && fits(c, file.record_word(Section::Nodes, n, 3))
}

// 6, of a node's word: is a `new` operand a class, and a type word a type?
fn type_word_fits(file: &File, role: Role, w: u16) -> bool
    ensures { result ≡ type_word_test file.now.bytes.now role w }
{
    match role {
        Role::NewClass => class_type_fits(file, w),
        Role::CastType => type_fits(file, w),
        _ => true,
    }
}

// 6, of a node.
fn type_words_fit(file: &File, n: usize) -> bool
    requires { n < count_of file.now.bytes.now Section.Nodes }
    ensures { result ≡ words_test file.now.bytes.now (type_word_test file.now.bytes.now) n }
{
    words_fit(file, n, |role, w| type_word_fits(file, role, w))
}

// 7, of a word of node n: unused words are 0, a let variable 2 or more, and parts later than n and there.
fn word_fits(file: &File, n: usize, role: Role, w: u16) -> bool
    ensures { result ≡ word_test file.now.bytes.now n role w }
{
    match role {
        Role::Unused => w == 0,
        Role::Bound => 2 <= w,
        Role::Expression => n < w as usize && (w as usize) < file.count_of(Section::Nodes),
        Role::Unknown => false,
        _ => true,
    }
}

// Is node n used as often as it is to be?
fn use_fits(uses: &[u8], n: usize) -> bool
    requires { n < length uses.now }
    ensures { result ≡ eqb (get_or uses.now n 0) (due_uses n) }
{
    if n == 0 {
        return uses[n] == 0;
    }
    uses[n] == 1
}

// 7, of a node: its words, and how often it is used.

fn node_fits(file: &File, uses: &[u8], n: usize) -> bool
    requires { Counted uses.now (uses_in file.now.bytes.now) × (n < count_of file.now.bytes.now Section.Nodes) }
    ensures { result ≡ node_test file.now.bytes.now n }
{
    words_fit(file, n, |role, w| word_fits(file, n, role, w)) && use_fits(uses, n)
}

// Does each record of section k fit? The place of the first that does not.
pub fn check_each<F: Fn(usize) -> bool>(file: &File, k: Section, fits: F) -> Result<(), u16>
    requires { (i : ℕ) → i < count_of file.now.bytes.now k → F.pre fits i }
    ensures { (test : ℕ → Bool) → ((i : ℕ) (fit : Bool) → i < count_of file.now.bytes.now k → F.post fits i fit → fit ≡ test i) →
        result ≡ passed_of (lowest_in file.now.bytes.now ((k, test) ∷ [])) }
{
    for i in 0..file.count_of(k) {
        if !fits(i) {
            return Err(file.record_at(k, i) as u16);
        }
    }
    Ok(())
}

// One more use of node p. More than two uses count as two, and no node has a number past the table.
fn count_use(uses: &mut [u8; Limits::NODES], p: u16)
    ensures { Adds uses.old uses.new (p ∷ []) }
{
    let i = p as usize;
    if Limits::NODES <= i {
        return;
    }
    let n = uses[i];
    if 2 <= n {
        return;
    }
    uses[i] = n + 1;
}

// The use that a node makes of another by one of its words.
fn count_word(uses: &mut [u8; Limits::NODES], role: Role, w: u16)
    ensures { Adds uses.old uses.new (part_in role w) }
{
    if let Role::Expression = role {
        count_use(uses, w);
    }
}

// The uses that node n makes of others.
fn count_parts(file: &File, uses: &mut [u8; Limits::NODES], n: usize)
    requires { n < count_of file.now.bytes.now Section.Nodes }
    ensures { Adds uses.old uses.new (parts (view_at file.now.bytes.now n)) }
{
    let Shape(a, b, c) = shape_at(file, n);
    count_word(uses, a, file.record_word(Section::Nodes, n, 1));
    count_word(uses, b, file.record_word(Section::Nodes, n, 2));
    count_word(uses, c, file.record_word(Section::Nodes, n, 3));
}

// The uses as bodies of methods.
fn count_bodies(file: &File, uses: &mut [u8; Limits::NODES])
    ensures { Adds uses.old uses.new (body_words file.now.bytes.now (count_of file.now.bytes.now Section.Methods)) }
{
    let n = file.count_of(Section::Methods);
    for i in 0..n {
        count_use(uses, file.record_word(Section::Methods, i, 3));
    }
}

// The uses as parts of nodes.
fn count_nodes(file: &File, uses: &mut [u8; Limits::NODES])
    ensures { Adds uses.old uses.new (parts_from file.now.bytes.now 0 (count_of file.now.bytes.now Section.Nodes)) }
{
    let n = file.count_of(Section::Nodes);
    for i in 0..n {
        count_parts(file, uses, i);
    }
}

// Stores in a table of zeros how often each node is used. The table is lent, since an array that is handed back is copied.
fn fill_uses(file: &File, uses: &mut [u8; Limits::NODES])
    requires { Counted uses.old [] }
    ensures { Counted uses.new (uses_in file.now.bytes.now) }
{
    count_bodies(file, uses);
    count_nodes(file, uses);
}

// 4, or the place of a no.
pub fn check_interfaces(file: &File) -> Result<(), u16>
    ensures { result ≡ passed_of (lowest_in file.now.bytes.now (interfaces_test file.now.bytes.now)) }
{
    check_each(file, Section::Interfaces, |i| interface_fits(file, i))
}

// 6, or the place of a no.
pub fn check_types(file: &File) -> Result<(), u16>
    ensures { result ≡ passed_of (lowest_in file.now.bytes.now (types_test file.now.bytes.now)) }
{
    check_each(
        file,
        Section::Signatures,
        |i| two_types_fit(file, Section::Signatures, i),
    )?;
    check_each(
        file,
        Section::Classes,
        |i| interface_type_fits(file, file.record_word(Section::Classes, i, 0)),
    )?;
    check_each(
        file,
        Section::Fields,
        |i| type_fits(file, file.record_word(Section::Fields, i, 1)),
    )?;
    check_each(
        file,
        Section::Methods,
        |i| two_types_fit(file, Section::Methods, i),
    )?;
    check_each(file, Section::Nodes, |i| type_words_fit(file, i))
}

// 7, or the place of a no.
pub fn check_nodes(file: &File) -> Result<(), u16>
    ensures { result ≡ passed_of (lowest_in file.now.bytes.now (nodes_test file.now.bytes.now)) }
{
    let mut counts = [0u8; Limits::NODES];
    fill_uses(file, &mut counts);
    let uses: &[u8] = &counts;
    let nodes = file.count_of(Section::Nodes);
    check_each(
        file,
        Section::Methods,
        |i| (file.record_word(Section::Methods, i, 3) as usize) < nodes,
    )?;
    check_each(file, Section::Nodes, |i| node_fits(file, uses, i))
}
