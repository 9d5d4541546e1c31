// The scope of an environment without its table: the type of one variable, and whether two environments have the same variables.
ghost use Rattle.std.specs.Prelude.{◌≡◌, true, ◌<◌, length};
ghost use Rattle.limits.specs.Limits.{BLOCK, BINDINGS};
ghost use Rattle.sections.specs.Laid.{found_of};
ghost use Rattle.typing.specs.Members.{type_in};
ghost use Rattle.machine.specs.Machine.{scope, slot, find, context};
ghost use Rattle.environments.specs.Chains.{Chain, Nearest, binding_at, bindings_in, lookup_of};

use block::{Area, Layout};
use limits::Limits;
use machine::Value;

// A link tells the next binding, so there is no range for a `for` to go through.
// The number of the nearest binding of variable x in an environment.
fn nearest(block: &[u8; Limits::BLOCK], env: u16, x: u16) -> Option<usize>
    requires { Chain block.now env }
    ensures { Nearest block.now env x result }
{
    let mut e = env as usize;
    while 0 < e {
        if areas::word(block, Area::Bindings, e - 1, Layout::NAME) == x {
            return Some(e - 1);
        }
        e = areas::word(block, Area::Bindings, e - 1, Layout::LINK) as usize;
    }
    None
}

// The value of the nearest binding of variable x in an environment.
pub fn variable(block: &[u8; Limits::BLOCK], env: u16, x: u16) -> Option<Value>
    requires { Chain block.now env }
    ensures { result ≡ lookup_of (find (scope (bindings_in block.now) env) x) }
{
    let i = nearest(block, env, x)?;
    Some(areas::value(block, Area::Bindings, i, Layout::BOUND))
}

// Its type.
pub fn variable_type(block: &[u8; Limits::BLOCK], env: u16, x: u16) -> Option<u16>
    requires { Chain block.now env }
    ensures { result ≡ found_of (type_in (context (bindings_in block.now) env) x) }
{
    let i = nearest(block, env, x)?;
    Some(areas::word(block, Area::Bindings, i, Layout::TYPE))
}

// Do bindings i and j have one name and one type?
fn same_slot(block: &[u8; Limits::BLOCK], i: usize, j: usize) -> bool
    requires { (i < BINDINGS) × (j < BINDINGS) }
    ensures { result ≡ true → slot (binding_at block.now i) ≡ slot (binding_at block.now j) }
{
    let x = areas::word(block, Area::Bindings, i, Layout::NAME);
    let y = areas::word(block, Area::Bindings, j, Layout::NAME);
    if x != y {
        return false;
    }
    let t = areas::word(block, Area::Bindings, i, Layout::TYPE);
    let u = areas::word(block, Area::Bindings, j, Layout::TYPE);
    t == u
}

// Two chains go on together until they meet, which no iterator over one of them says.
// Do two environments have the same variables with the same types, nearest first? The walk along both ends where they meet.
pub fn same_scope(block: &[u8; Limits::BLOCK], e: u16, f: u16) -> bool
    requires { Chain block.now e × Chain block.now f }
    ensures { result ≡ true → context (bindings_in block.now) e ≡ context (bindings_in block.now) f }
{
    let mut i = e as usize;
    let mut j = f as usize;
    while i != j {
        if i == 0 {
            return false;
        }
        if j == 0 {
            return false;
        }
        if !same_slot(block, i - 1, j - 1) {
            return false;
        }
        i = areas::word(block, Area::Bindings, i - 1, Layout::LINK) as usize;
        j = areas::word(block, Area::Bindings, j - 1, Layout::LINK) as usize;
    }
    true
}
