// The table as it is read.
#![tactic(auto)]

ghost use Rattle.std.specs.Prelude.{◌≡◌};
ghost use Rattle.table.specs.Table.{table_entries};

use crate::ENTRIES;

#[derive(Clone, Copy)]
pub struct Table<'a> {
    pub entries: &'a [u32; ENTRIES],
    pub ghost entries_are: { entries.now ≡ table_entries },
}
