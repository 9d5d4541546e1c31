// The move of a thread at a node, and of one with a value at a node that waits.
ghost use Rattle.std.specs.Prelude.{◌≡◌, List, [], ◌<◌};
ghost use Rattle.script.specs.declared.Section.TheVariants.{Nodes as nodes};
ghost use Rattle.script.specs.Section.{count_of};
ghost use Rattle.script.specs.Reading.{view_at};
ghost use Rattle.members.specs.Code.{Blank};
ghost use Rattle.machine.specs.declared.Frame.{Frame};
ghost use Rattle.machine.specs.Config.{running, returning, Config, code_of};
ghost use Rattle.machine.specs.Machine.{limits, spare, run_node, resume as resumes, Path};
ghost use Rattle.representation.specs.Preorder.{frames_above};
ghost use Rattle.environments.specs.Chains.{Chain};
ghost use Rattle.state.specs.Represents.{Rest, SomeState};
ghost use Rattle.moves.specs.Performs.{Performs, AtPosition, WordBound, OwnFields, Resumes};
ghost use Rattle.moves.specs.AtFrame.{AtTypedFrame};
ghost use Rattle.choices.specs.PerformsChoice.{FirstTyped, Wakes};

use block::{Area, Layout};
use control::{become_join, leave_frame};
use lets::{WaitingLet, bind_value};
use limits::Limits;
use locking::enter_lock;
use machine::{Frame, Value};
use members::Code;
use methods::enter_method;
use moves::{Effect, Member, become_null, become_number, give_value, make_object, read_field};
use script::Kind;
use sections::{kind_at, node_word};
use subtypes::Script;
use sums::add_variables;
use waiting::{drop_cast, open_lock, store_value};

// The move of a thread at node a.
pub fn run_node(
    script: &Script,
    block: &mut [u8; Limits::BLOCK],
    i: usize,
    a: u16,
    env: u16,
) -> Effect
    requires there { (a < count_of script.now.bytes.now nodes) × SomeState block.old i }
    requires chain { Chain block.old env × WordBound block.old env }
    ensures { (c : Config) (p : Path) (x : Rest) (fs : List Frame) →
        OwnFields (code_of script.now.bytes.now) c.stores.objects →
        AtPosition block.old i c p (running a env fs) x →
        Performs block.old i x
        (run_node (code_of script.now.bytes.now) (spare limits c.stores c.tree) c.stores (frames_above [] c.tree p) fs env a (view_at script.now.bytes.now a))
        block.new result }
{
    let x = node_word(script.bytes, a, 1);
    let y = node_word(script.bytes, a, 2);
    let z = node_word(script.bytes, a, 3);
    let field = Member {
        env,
        target: x,
        name: y,
    };
    match kind_at(script.bytes, a) {
        Kind::Variable => give_value(block, i, env, x),
        Kind::Select => read_field(script, block, i, field),
        Kind::Update | Kind::Call => leave_frame(block, i, Frame::Awaits(a, env), z, env),
        Kind::Let => leave_frame(block, i, Frame::Awaits(a, env), y, env),
        Kind::New => make_object(script, block, i, x),
        Kind::Cast => leave_frame(block, i, Frame::Casts(a), y, env),
        Kind::Fork => become_join(block, i, env, x, y, z),
        Kind::Lock => enter_lock(block, i, env, x, y),
        Kind::Constant => become_number(block, i, x, y),
        Kind::Sum => add_variables(block, i, env, x, y),
        Kind::Null | Kind::Unknown => become_null(block, i),
    }
}

// A value, and the node that awaits it in an environment.
#[derive(Clone, Copy)]
struct Awaited {
    value: Value,
    node: u16,
    env: u16,
}

// A value at a node that waits: a write, a call or a let; no other node does.
fn wake(
    code: &Code,
    table: &mut [u16],
    block: &mut [u8; Limits::BLOCK],
    i: usize,
    w: Awaited,
) -> Effect
    requires at_typed_frame { AtTypedFrame code.now.script.bytes.now table.old block.old i w.env w.value }
    requires node_bound { (w.node < count_of code.now.script.bytes.now nodes) × FirstTyped code.now.script.bytes.now block.old w.node w.env }
    ensures wakes { Wakes code.now.script.bytes.now block.old i w.value w.node w.env block.new result }
    ensures table_unchanged { table.new ≡ table.old }
{
    let s = code.script.bytes;
    let x = node_word(s, w.node, 1);
    let y = node_word(s, w.node, 2);
    let z = node_word(s, w.node, 3);
    let member = Member {
        env: w.env,
        target: x,
        name: y,
    };
    let binding = WaitingLet {
        value: w.value,
        env: w.env,
        name: x,
        first: y,
        body: z,
    };
    match kind_at(s, w.node) {
        Kind::Update => store_value(&code.script, block, i, w.value, member),
        Kind::Call => enter_method(&code.script, block, i, w.value, member),
        Kind::Let => bind_value(code, table, block, i, binding),
        _ => Effect::Still,
    }
}

// A thread with a value. "A finished thread has a value and no frame", "a waiting cast vanishes", "A value at a lock frame opens the object."
pub fn resume(
    code: &Code,
    table: &mut [u16],
    block: &mut [u8; Limits::BLOCK],
    i: usize,
    v: Value,
) -> Effect
    requires { Blank table.old × Resumes code.now.script.bytes.now block.old i v }
    ensures performs { (c : Config) (p : Path) (x : Rest) (fs : List Frame) →
        OwnFields (code_of code.now.script.bytes.now) c.stores.objects →
        AtPosition block.old i c p (returning v fs) x →
        Performs block.old i x
        (resumes (code_of code.now.script.bytes.now) (spare limits c.stores c.tree) c.stores v fs)
        block.new result }
    ensures table_unchanged { table.new ≡ table.old }
{
    let frames = areas::word(block, Area::Positions, i, Layout::WAITING);
    if frames == 0 {
        return Effect::Still;
    }
    match state::top_frame(block, i) {
        Frame::Awaits(node, env) => {
            let w = Awaited {
                value: v,
                node,
                env,
            };
            wake(code, table, block, i, w)
        }
        Frame::Casts(_) => drop_cast(block, i, v),
        Frame::Locks(o) => open_lock(block, i, v, o),
    }
}
