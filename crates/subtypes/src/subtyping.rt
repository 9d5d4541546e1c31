// The rows of interfaces, filled by a walk up from each.
ghost use Rattle.std.specs.Prelude.{◌≡◌, suc, ◌+◌, ◌-◌, ◌<◌};
ghost use Rattle.limits.specs.Limits.{INTERFACES, CLASSES};
ghost use Rattle.script.specs.declared.Section.TheVariants.{Interfaces as interfaces};
ghost use Rattle.script.specs.Section.{count_of};
ghost use Rattle.script.specs.Syntax.{int_of};
ghost use Rattle.script.specs.Reading.{program_of};
ghost use Rattle.script.specs.Statements.{WithinLayout, InterfaceWord};
ghost use Rattle.typing.specs.Members.{reach, below};
ghost use Rattle.subtypes.specs.Tables.{RowsTo};
ghost use Rattle.subtypes.specs.Subtypes.{DeclaredAs, Rows, Climbed};

use crate::rows::{has_bit, join, mark};
use limits::Limits;
use script::Section;
use sections::{count_of, record_word};

// These fill a part of what a Script has, so there is none yet.
// A form is a word of the script, of which every other value but 1 is no join: an enum would only name the one comparison.
// Walks up from the interface t, and stores what it is at or below. A join calls this on both its parents and hands the rows along, in which an ancestor that
// has been walked is marked by its own bit, so that none is walked twice. There are at most 130 type numbers, so a byte carries them.
fn climb(s: &[u8], t: u8, rows: &mut [u16])
    requires { WithinLayout s.now × InterfaceWord s.now t × Rows s.now rows.old }
    ensures { Climbed s.now rows.old rows.new (t - 1) }
{
    let i = t as usize - 1;
    if has_bit(rows, i, i) {
        return;
    }
    let form = record_word(s, Section::Interfaces, i, 0);
    if form != 1 {
        mark(rows, i);
        return;
    }
    let left = record_word(s, Section::Interfaces, i, 1) as u8;
    climb(s, left, rows);
    let right = record_word(s, Section::Interfaces, i, 2) as u8;
    climb(s, right, rows);
    join(rows, i, left as usize - 1, right as usize - 1);
    mark(rows, i);
}

// Stores what each interface is at or below.
pub fn fill_rows(s: &[u8], rows: &mut [u16])
    requires { WithinLayout s.now × Rows s.now rows.old }
    ensures { RowsTo s.now rows.new (count_of s.now interfaces) }
{
    let count = count_of(s, Section::Interfaces);
    for i in 0..count {
        climb(s, i as u8 + 1, rows);
    }
}
