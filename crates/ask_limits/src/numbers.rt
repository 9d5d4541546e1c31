// The numbers of names, a sort after another, with one table for all.
ghost use Rattle.std.specs.Prelude.{◌≡◌, ◌≤◌, length};
ghost use Rattle.numbering.specs.Numbers.{role_test};
ghost use Rattle.numbering.specs.declared.Sort.TheVariants.{Methods, Fields, Variables};
ghost use Rattle.ask_limits.specs.Numbers.{sort_numbered};

use numbering::{Linked, Sort, number_names};
use spellings::NameTable;

// Numbers the names of methods, of fields and of variables.
pub fn number_rest<const N: usize>(linked: &Linked, values: &mut [u16], table: &mut NameTable<N>)
    requires { (length linked.now.tokens.roles.now ≤ length values.old) × (length linked.now.tokens.roles.now ≤ N) }
    ensures { values.new
        ≡ sort_numbered (role_test Variables) linked.now.tokens
        (sort_numbered (role_test Fields) linked.now.tokens
        (sort_numbered (role_test Methods) linked.now.tokens values.old)) }
{
    for sort in [Sort::Methods, Sort::Fields, Sort::Variables] {
        table.clear();
        number_names(linked, sort, values, table);
    }
}
