// Where the runs of records begin that belong to an owner.
ghost use Rattle.std.specs.Prelude.{◌≡◌, ◌+◌, ◌≤◌, length};
ghost use Rattle.slices.specs.Zero.{AllZero};
ghost use Rattle.script.specs.Section.{count_of};
ghost use Rattle.script.specs.Statements.{WithinLayout};
ghost use Rattle.sections.specs.Laid.{owner_of};
ghost use Rattle.subtypes.specs.Tables.{STARTS, Starts};
ghost use Rattle.members.specs.Lookup.{RunsTo};

use limits::Limits;
use script::Section;
use sections::{count_of, own_count, owner_of};
use subtypes::fill_rows;

// These fill what a Script has, so there is none yet.
// Stores from `base` on where the run of each owner of records of section k begins.
fn fill_runs(s: &[u8], k: Section, base: usize, starts: &mut [u16])
    requires { WithinLayout s.now × (base + count_of s.now (owner_of k) ≤ length starts.old) }
    ensures { RunsTo s.now k base (count_of s.now (owner_of k)) starts.old starts.new }
{
    let owners = count_of(s, owner_of(k));
    let mut sum: usize = 0;
    for o in 0..owners {
        starts[base + o] = sum as u16;
        sum += own_count(s, k, o);
    }
}

// Stores where the run of each owner begins and what each interface is at or below, so that no look-up adds counts up again and no question walks.
pub fn fill_starts(s: &[u8], starts: &mut [u16])
    requires { WithinLayout s.now × (length starts.old ≡ STARTS) × AllZero starts.old }
    ensures { Starts s.now starts.new }
{
    fill_rows(s, starts);
    fill_runs(s, Section::Signatures, 0, starts);
    fill_runs(s, Section::Fields, Limits::INTERFACES, starts);
    fill_runs(
        s,
        Section::Methods,
        Limits::INTERFACES + Limits::CLASSES,
        starts,
    );
}
