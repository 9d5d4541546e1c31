// The objects and bindings of a block: one more of each, and changes to an object. "Objects and bindings are never freed."
ghost use Rattle.std.specs.Prelude.{◌≡◌, false, [], ◌∷◌, ◌++◌, ℕ, ◌<◌, length, get_or, set, replicate};
ghost use Rattle.words.specs.Word.{bytes};
ghost use Rattle.limits.specs.Limits.{BLOCK, OBJECTS, BINDINGS, CLASS_FIELDS};
ghost use Rattle.machine.specs.declared.Value.TheVariants.{Null as nil};
ghost use Rattle.machine.specs.Config.{Object};
ghost use Rattle.block.specs.declared.Area.TheVariants.{Objects, Bindings};
ghost use Rattle.block.specs.Layout.{counted, word_in, field_word};
ghost use Rattle.block.specs.Values.{value_in, Storable};
ghost use Rattle.block.specs.Block.{Parts, laid};
ghost use Rattle.representation.specs.Changed.{with_objects, with_bindings, marked_shut, with_field};

use crate::areas::{count, put, put_count, put_pair};
use crate::values::{put_value, value};
use block::{Area, Layout};
use limits::Limits;
use machine::Value;

// An open object with null in each of its m fields, whatever m is: null is all zeros, as is all past the last object. The initial values of its class follow in
// crate initials.
pub fn new_object(block: &mut [u8; Limits::BLOCK], class: u16)
    requires { counted block.old Objects < OBJECTS }
    ensures { (p : Parts) (m : ℕ) →
        block.old ≡ bytes (laid p) →
        block.new ≡ bytes (laid (with_objects p (p.objects ++ record { class = class; shut = false; fields = replicate m nil } ∷ []))) }
{
    let n = count(block, Area::Objects);
    put(block, Area::Objects, n, Layout::CLASS, class);
    put_count(block, Area::Objects, (n + 1) as u16);
}

// Object o opened or shut.
pub fn set_shut(block: &mut [u8; Limits::BLOCK], o: usize, shut: bool)
    requires { o < OBJECTS }
    ensures { (p : Parts) (d : Object) →
        block.old ≡ bytes (laid p) →
        o < length p.objects →
        block.new ≡ bytes (laid (with_objects p (set p.objects o (marked_shut (get_or p.objects o d) shut)))) }
{
    put(block, Area::Objects, o, Layout::SHUT, u16::from(shut));
}

// Field k of object o.
pub fn field(block: &[u8; Limits::BLOCK], o: usize, k: usize) -> Value
    requires { (o < OBJECTS) × (k < CLASS_FIELDS) }
    ensures { (result ≡ value_in (word_in block.now Objects o) (field_word k)) × Storable result }
{
    value(
        block,
        Area::Objects,
        o,
        Layout::FIRST_FIELD + Layout::VALUE * k,
    )
}

// v in field k of object o.
pub fn put_field(block: &mut [u8; Limits::BLOCK], o: usize, k: usize, v: Value)
    requires { (o < OBJECTS) × (k < CLASS_FIELDS) }
    ensures { (p : Parts) (d : Object) →
        block.old ≡ bytes (laid p) →
        o < length p.objects →
        k < length (get_or p.objects o d).fields →
        block.new ≡ bytes (laid (with_objects p (set p.objects o (with_field (get_or p.objects o d) k v)))) }
{
    put_value(
        block,
        Area::Objects,
        o,
        Layout::FIRST_FIELD + Layout::VALUE * k,
        v,
    );
}

// One binding more.
pub fn add_binding(block: &mut [u8; Limits::BLOCK], name: u16, t: u16, value: Value, link: u16)
    requires { counted block.old Bindings < BINDINGS }
    ensures { (p : Parts) →
        block.old ≡ bytes (laid p) →
        block.new ≡ bytes (laid (with_bindings p (p.bindings ++ record { name = name; type = t; value = value; link = link } ∷ []))) }
{
    let n = count(block, Area::Bindings);
    put_pair(block, Area::Bindings, n, Layout::NAME, name, t);
    put_value(block, Area::Bindings, n, Layout::BOUND, value);
    put(block, Area::Bindings, n, Layout::LINK, link);
    put_count(block, Area::Bindings, (n + 1) as u16);
}
