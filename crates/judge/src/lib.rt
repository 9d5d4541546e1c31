// Judges a text: is it derived by the grammar, and if not, where is the first token that fits nowhere? One pass over the tokens, with a stack of closers, that
// leaves each token's role and offset.
#![tactic(auto)]

ghost use Rattle.std.specs.Prelude.{◌≡◌, ◌+◌, ◌<◌, ◌≤◌, length, drop, set};
ghost use Rattle.limits.specs.Limits.{TEXT};
ghost use Rattle.tokens.specs.Next.{K_NAME};
ghost use Rattle.tokens.specs.Runs.{word_from};
ghost use Rattle.flat.specs.Flat.{POINTS};
ghost use Rattle.table.specs.Table.{Tight, Plain, unpacked};
ghost use Rattle.turns.specs.Stacks.{top_number};
ghost use Rattle.judge.specs.Standing.{Advanced, Gone, EndedAs};
ghost use Rattle.judge.specs.Judging.{Room, JudgedText};

use flat::Turn;
use table::{ENTRIES, Entry, Table, fill_table};
use tokens::{Next, Text};
use turns::{
    is_own, parameter_after, put_closer, put_role, start_after, top_of, turn_under, visible_after,
};

// What is counted in a text that is derived: its tokens, and how many of them come before the start.
#[derive(Clone, Copy)]
pub struct Accepted {
    pub tokens: usize,
    pub start: usize,
}

// A text that is not derived: the place of the token that fits nowhere, or of the text's end.
#[derive(Clone, Copy)]
pub struct Misfit {
    pub place: usize,
}

// Where the machine stands: its point, how many closers it waits for, where the parameter's name is (with none the text's end, where no name is) and whether
// it is visible, the tokens read, and how many of them before the start. The arrays that it writes are lent beside it: a struct that held them would have to
// say of each, in every contract, that it is still the one lent.
#[derive(Clone, Copy)]
pub struct Standing {
    pub point: u8,
    pub depth: usize,
    pub parameter: usize,
    pub visible: bool,
    pub tokens: usize,
    pub start: usize,
}

impl Standing {
    // Takes the turn m of token t, under the innermost closer.
    fn advance(
        self,
        text: &Text,
        t: Next,
        m: Turn,
        top: Option<u8>,
        roles: &mut [u8],
        offsets: &mut [u16],
        closers: &mut [u8],
    ) -> Standing
        requires tokens_in_bounds { (self.tokens < length roles.old) × (self.tokens < length offsets.old) × (self.depth < length closers.old) × Tight t.kind m }
        requires parameter_in_bounds { (self.parameter ≤ length text.now.bytes.now)
            × (t.start < length text.now.bytes.now)
            × (length text.now.bytes.now ≤ TEXT) }
        requires text_value { t.kind ≡ K_NAME → t.start + length (word_from (drop t.start text.now.bytes.now)) ≡ t.end }
        ensures advanced { Advanced text.now.bytes.now self t m (top_number top) roles.old closers.old result roles.new closers.new }
        ensures offsets_after { offsets.new ≡ set offsets.old self.tokens t.start }
    {
        let own = is_own(text, t, self.parameter, self.visible);
        let n = self.tokens;
        put_role(roles, n, m, own);
        offsets[n] = t.start as u16;
        Standing {
            point: m.next,
            depth: put_closer(closers, self.depth, m.deed, self.visible, own),
            parameter: parameter_after(text.bytes, t, m.deed, self.parameter),
            visible: visible_after(m.deed, self.visible, top),
            tokens: n + 1,
            start: start_after(m.next, n + 1, self.start),
        }
    }

    // Takes the turn of a token t that does nothing besides, of which e is the entry. Most tokens are such ones, and this is the least that `advance` would do.
    fn go(self, t: Next, e: Entry, roles: &mut [u8], offsets: &mut [u16]) -> Standing
        requires tokens_in_bounds { (self.tokens < length roles.old) × (self.tokens < length offsets.old) × Tight t.kind (unpacked e.bits) }
        requires start_bound { (t.start < TEXT) × Plain e.bits }
        ensures gone { Gone self t (unpacked e.bits) roles.old result roles.new }
        ensures offsets_after { offsets.new ≡ set offsets.old self.tokens t.start }
    {
        let n = self.tokens;
        let next = e.next_point();
        roles[n] = e.role();
        offsets[n] = t.start as u16;
        Standing {
            point: next,
            depth: self.depth,
            parameter: self.parameter,
            visible: self.visible,
            tokens: n + 1,
            start: start_after(next, n + 1, self.start),
        }
    }

    // The verdict at the text's end.
    fn ended(self, table: &Table, text: &[u8]) -> Result<Accepted, Misfit>
        requires { self.point < POINTS }
        ensures { EndedAs text.now self result }
    {
        let m = table.turn_at(self.point, 0);
        if m.deed != flat::CLOSE || self.depth != 0 {
            return Err(Misfit { place: text.len() });
        }
        Ok(Accepted {
            tokens: self.tokens,
            start: self.start,
        })
    }
}

// `while let`, since where the next token is looked for is where this one ends, and the tables say what becomes of it.
// The pass, with the two tables at hand.
fn judge_by(
    table: &Table,
    text: &Text,
    roles: &mut [u8],
    offsets: &mut [u16],
    closers: &mut [u8],
) -> Result<Accepted, Misfit>
    requires { Room text.now.bytes.now roles.old offsets.old closers.old }
    ensures { JudgedText text.now.bytes.now roles.old offsets.old result roles.new offsets.new }
{
    let mut s = Standing {
        point: flat::TOP,
        depth: 0,
        parameter: text.bytes.len(),
        visible: false,
        tokens: 0,
        start: 0,
    };
    let mut at = 0;
    while let Some(t) = text.next_token(at) {
        at = t.end;
        let e = table.entry_at(s.point, t.kind);
        if e.is_plain() {
            s = s.go(t, e, roles, offsets);
            continue;
        }
        let top = top_of(closers, s.depth);
        let m = turn_under(table, s.point, top, t.kind);
        if m.deed == flat::STUCK {
            return Err(Misfit { place: t.start });
        }
        s = s.advance(text, t, m, top, roles, offsets, closers);
    }
    s.ended(table, text.bytes)
}

// Judges a text. Each of the arrays is at least as long as the text; what they held before does not count.
pub fn judge(
    text: &Text,
    roles: &mut [u8],
    offsets: &mut [u16],
    closers: &mut [u8],
) -> Result<Accepted, Misfit>
    requires { Room text.now.bytes.now roles.old offsets.old closers.old }
    ensures { JudgedText text.now.bytes.now roles.old offsets.old result roles.new offsets.new }
{
    let mut entries = [0u32; ENTRIES];
    fill_table(&mut entries);
    let table = Table { entries: &entries };
    judge_by(&table, text, roles, offsets, closers)
}
