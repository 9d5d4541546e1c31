// The three parts of a block, asked one after the other: the bytes of a part first, and then what they mean.
ghost use Rattle.std.specs.Prelude.{◌≡◌, true, length};
ghost use Rattle.std.proofs.Math.Option.{some};
ghost use Rattle.limits.specs.Limits.{BLOCK};
ghost use Rattle.members.specs.Code.{Blank};
ghost use Rattle.machine.specs.Decide.{only};
ghost use Rattle.parts.specs.Parts.{config_read, objects_sound, bindings_sound};
ghost use Rattle.calls.specs.Calls.{config_of, parts_asked};
ghost use Rattle.wellformed.specs.Examining.{examined_as};

use block::Area;
use calls::LentQuestion;
use canonical::{area_in_order, threads_in_order};
use frames::tree_fits;
use limits::Limits;
use locks::locks_fit;
use members::Code;
use subtypes::Script;
use values::{bindings_fit, objects_fit};

// 21: are the objects sound?
fn objects_sound(script: &Script, block: &[u8; Limits::BLOCK]) -> bool
    ensures { result ≡ objects_sound script.now.bytes.now block.now }
{
    if !area_in_order(script.bytes, block, Area::Objects) {
        return false;
    }
    objects_fit(script, block)
}

// 26: are the bindings sound? The objects are.
fn bindings_sound(script: &Script, block: &[u8; Limits::BLOCK]) -> bool
    requires { objects_sound script.now.bytes.now block.now ≡ true }
    ensures { result ≡ bindings_sound script.now.bytes.now block.now }
{
    if !area_in_order(script.bytes, block, Area::Bindings) {
        return false;
    }
    bindings_fit(script, block)
}

// 27: are frames and threads sound, and is shut what must be? The objects and bindings are sound, so the block is well formed if this is, and stands for the
// configuration that is read from it.
fn threads_sound(code: &Code, table: &mut [u16], t: u16, block: &[u8; Limits::BLOCK]) -> bool
    requires blank { Blank table.old }
    requires block_value { (objects_sound code.now.script.bytes.now block.now ≡ true) × (bindings_sound code.now.script.bytes.now block.now ≡ true) }
    ensures block_value_2 { config_of code.now.script.bytes.now t block.now ≡ only result (some (config_read code.now.script.bytes.now block.now)) }
    ensures table_unchanged { table.new ≡ table.old }
{
    if !threads_in_order(code.script.bytes, block) {
        return false;
    }
    if !tree_fits(code, table, block, t) {
        return false;
    }
    locks_fit(block)
}

// Is the block a well-formed configuration of this script, whose start has type t? Then it stands for the configuration that is read from it, and else the
// first part that is bad is named.
pub fn well_formed(
    code: &Code,
    table: &mut [u16],
    t: u16,
    block: &[u8; Limits::BLOCK],
) -> Result<(), LentQuestion>
    requires { Blank table.old }
    ensures block_value { parts_asked code.now.script.bytes.now t block.now ≡ examined_as result (config_read code.now.script.bytes.now block.now) }
    ensures table_unchanged { table.new ≡ table.old }
{
    if !objects_sound(&code.script, block) {
        return Err(LentQuestion::BlockObjects);
    }
    if !bindings_sound(&code.script, block) {
        return Err(LentQuestion::BlockBindings);
    }
    if !threads_sound(code, table, t, block) {
        return Err(LentQuestion::BlockThreads);
    }
    Ok(())
}
