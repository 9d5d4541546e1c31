// The two stacks of the machine: the roles of the tokens read, of which the last few may still be settled, and the closers waited for. Each is an array that
// the caller lends, with its height beside it: there is no heap, and what is above the height counts too, as room.
ghost use Rattle.std.specs.Prelude.{◌≡◌, List, ℕ, ◌+◌, ◌<◌, ◌≤◌, length};
ghost use Rattle.grammar.specs.Roles.{BINDING};
ghost use Rattle.flat.specs.Flat.{settled, replaced_last, roles_by, closers_by};
ghost use Rattle.turns.specs.Stacks.{Stacked, Restacked, Pushed, Closers, TopIs};

use crate::{closer, pops, role_of};
use flat::Turn;

// The innermost closer, if there is one.
pub fn top_of(closers: &[u8], depth: usize) -> Option<u8>
    requires { depth ≤ length closers.now }
    ensures { (cs rest : List ℕ) → Stacked closers.now depth cs rest → TopIs result cs }
{
    closers[..depth].last().copied()
}

// Settles the role of the token `back` tokens back; its binding stays.
fn settle(roles: &mut [u8], count: usize, back: u8, becomes: u8)
    requires { (count ≤ length roles.old) × (becomes < BINDING) }
    ensures { Restacked roles.old count (settled back becomes) roles.new }
{
    let d = back as usize;
    if d == 0 || count < d {
        return;
    }
    let i = count - d;
    let old = roles[i];
    roles[i] = becomes + old / flat::BINDING * flat::BINDING;
}

// The last token's role becomes another, unless that is 0.
fn replace_last(roles: &mut [u8], count: usize, before: u8)
    requires { count ≤ length roles.old }
    ensures { Restacked roles.old count (replaced_last before) roles.new }
{
    if before != 0 && count != 0 {
        roles[count - 1] = before;
    }
}

// Settles earlier roles, and appends the token's own.
pub fn put_role(roles: &mut [u8], count: usize, m: Turn, own: bool)
    requires { (count < length roles.old) × (m.role < BINDING) × (m.becomes < BINDING) }
    ensures { Pushed roles.old count (roles_by m own) roles.new }
{
    settle(roles, count, m.back, m.becomes);
    replace_last(roles, count, m.before);
    roles[count] = role_of(m.role, m.deed, own);
}

// Pushes the closer of a deed, or takes the innermost one off; the answer is how many there are.
pub fn put_closer(closers: &mut [u8], depth: usize, deed: u8, visible: bool, own: bool) -> usize
    requires { (depth < length closers.old) × (deed < 16) }
    ensures upper_bound { result ≤ depth + 1 }
    ensures by_index { (cs : List ℕ) → Closers closers.old depth cs → Closers closers.new result (closers_by deed visible own cs) }
{
    if pops(deed) {
        return depth.saturating_sub(1);
    }
    if deed < flat::PUSH_LET {
        return depth;
    }
    closers[depth] = closer(deed, visible, own);
    depth + 1
}
