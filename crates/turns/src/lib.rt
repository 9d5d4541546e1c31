// What a token does to the machine that judges a text: decisions by value here, and the two stacks in `stacks`.
#![tactic(auto)]

mod stacks;

ghost use Rattle.std.specs.Prelude.{◌≡◌, ◌||◌, cond, ◌+◌, ◌*◌, ◌/◌, ◌<◌, ◌≤◌, eqb, length, drop};
ghost use Rattle.grammar.specs.Roles.{BINDING, B_PARAMETER, B_OTHER};
ghost use Rattle.tokens.specs.Next.{K_NAME, KINDS, lexeme_of};
ghost use Rattle.tokens.specs.Runs.{word_from};
ghost use Rattle.flat.specs.Flat.{POINTS, CLOSERS, OCCURS, own_test, kept_by, pops_test, BINDS, start_by};
ghost use Rattle.turns.specs.Stacks.{TurnUnder, ParameterIs, top_number};

use flat::Turn;
pub use stacks::{put_closer, put_role, top_of};
use table::Table;
use tokens::{NAME, Next, Text};

// What a token of a kind does at a point, where the innermost closer says so if the point leaves it to it.
pub fn turn_under(table: &Table, point: u8, top: Option<u8>, kind: u8) -> Turn
    requires { (point < POINTS) × (kind < KINDS) }
    ensures { TurnUnder point top kind result }
{
    let m = table.turn_at(point, kind);
    if m.deed != flat::CLOSE {
        return m;
    }
    let Some(closer) = top else {
        return Turn {
            next: 0,
            role: 0,
            deed: flat::STUCK,
            back: 0,
            becomes: 0,
            before: 0,
        };
    };
    table.turn_at(closer % flat::POINTS, kind)
}

// Is the token t the parameter's name, where the parameter is visible?
pub fn is_own(text: &Text, t: Next, parameter: usize, visible: bool) -> bool
    requires in_text { (t.start ≤ length text.now.bytes.now) × (parameter ≤ length text.now.bytes.now) }
    requires text_value { t.kind ≡ K_NAME → t.start + length (word_from (drop t.start text.now.bytes.now)) ≡ t.end }
    ensures { result ≡ own_test (word_from (drop parameter text.now.bytes.now)) visible (lexeme_of t.kind (drop t.start text.now.bytes.now)) }
{
    t.kind == NAME && visible && text.is_name(parameter, t.start, t.end - t.start)
}

// The role of a token: a variable's has its binding.
fn role_of(role: u8, deed: u8, own: bool) -> u8
    requires { role < BINDING }
    ensures { result ≡ role + BINDING * cond (eqb deed OCCURS) (cond own B_PARAMETER B_OTHER) 0 }
{
    match (deed, own) {
        (flat::OCCURS, true) => role + flat::BINDING,
        (flat::OCCURS, false) => role + flat::OTHER,
        _ => role,
    }
}

// Does a deed take a closer off?
fn pops(deed: u8) -> bool
    ensures { result ≡ pops_test deed }
{
    matches!(deed, flat::POP | flat::LEAVE)
}

// What a closer keeps: is the parameter visible behind it?
fn kept(deed: u8, visible: bool, own: bool) -> bool
    ensures { result ≡ kept_by deed visible own }
{
    match deed {
        flat::PUSH_BODY => false,
        flat::PUSH_LET => visible && !own,
        _ => visible,
    }
}

// A closer with what it keeps.
fn closer(deed: u8, visible: bool, own: bool) -> u8
    requires { deed < 16 }
    ensures { result ≡ CLOSERS + deed + POINTS * cond (kept_by deed visible own) 1 0 }
{
    let low = flat::CLOSERS + deed;
    if kept(deed, visible, own) {
        low + flat::POINTS
    } else {
        low
    }
}

// Is the parameter visible behind a token? What the closer kept, if one is taken off.
pub fn visible_after(deed: u8, visible: bool, top: Option<u8>) -> bool
    ensures { result ≡ cond (pops_test deed) (eqb (top_number top / POINTS) 1) (eqb deed BINDS || visible) }
{
    if pops(deed) {
        return top.is_some_and(|closer| closer / flat::POINTS == 1);
    }
    deed == flat::BINDS || visible
}

// Where the parameter's name is behind a token; with no parameter it is the text's end.
pub fn parameter_after(text: &[u8], t: Next, deed: u8, parameter: usize) -> usize
    requires { (deed ≡ BINDS → t.kind ≡ K_NAME) × (t.start ≤ length text.now) × (parameter ≤ length text.now) }
    ensures { ParameterIs text.now t.kind t.start deed parameter result }
{
    match deed {
        flat::BINDS => t.start,
        flat::LEAVE => text.len(),
        _ => parameter,
    }
}

// How many tokens are before the start: so many as before the last declaration's end.
pub fn start_after(next: u8, count: usize, start: usize) -> usize
    ensures { result ≡ start_by next count start }
{
    match next {
        flat::TOP | flat::TOP_C => count,
        _ => start,
    }
}
