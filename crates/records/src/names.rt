// Question 8: names, and how many fields a class has.
ghost use Rattle.std.specs.Prelude.{◌≡◌, [], ◌∷◌, ◌-◌, ◌≤◌};
ghost use Rattle.script.specs.Lists.{sum_below};
ghost use Rattle.script.specs.Section.{count_of};
ghost use Rattle.script.specs.Asking.{first_out_of, lowest_in};
ghost use Rattle.script.specs.Questions.{names_test};
ghost use Rattle.script.specs.Statements.{OwnersAre};
ghost use Rattle.sections.specs.Laid.{owner_of, own_of, name_of, new_in, fresh_in, found_of, passed_of};

use crate::nodes::check_each;
use limits::Limits;
use script::Section;
use sections::{File, owner_of};

// The first record from `start` on below `end` whose name an earlier one of them has.
fn repeated_in(file: &File, k: Section, start: usize, end: usize) -> Option<usize>
    requires { (start ≤ end) × (end ≤ count_of file.now.bytes.now k) }
    ensures { result ≡ found_of (first_out_of (new_in (name_of file.now.bytes.now k) start) start (end - start)) }
{
    for i in start..end {
        let name = file.record_word(k, i, 0);
        if let Some(_) = file.find_name(k, start, i, name) {
            return Some(i);
        }
    }
    None
}

// Has no record of section k the name of an earlier one of its owner? The place of the first that has. The runs stand in the order of their owners, so
// the first owner with one has it.
fn check_fresh(file: &File, k: Section) -> Result<(), u16>
    requires { sum_below (own_of file.now.bytes.now k) (count_of file.now.bytes.now (owner_of k)) ≡ count_of file.now.bytes.now k }
    ensures { result ≡ passed_of (lowest_in file.now.bytes.now ((k, fresh_in file.now.bytes.now k) ∷ [])) }
{
    let n = file.count_of(owner_of(k));
    let mut start: usize = 0;
    for o in 0..n {
        let end = start + file.own_count(k, o);
        if let Some(i) = repeated_in(file, k, start, end) {
            return Err(file.record_at(k, i) as u16);
        }
        start = end;
    }
    Ok(())
}

// 8. Are names unique in each list, each class's fields and each class's methods, and has each class at most 8 fields? Or the place of a no.
pub fn check_names(file: &File) -> Result<(), u16>
    requires { OwnersAre file.now.bytes.now }
    ensures { result ≡ passed_of (lowest_in file.now.bytes.now (names_test file.now.bytes.now)) }
{
    check_fresh(file, Section::Signatures)?;
    check_each(
        file,
        Section::Classes,
        |c| file.own_count(Section::Fields, c) <= Limits::CLASS_FIELDS,
    )?;
    check_fresh(file, Section::Fields)?;
    check_fresh(file, Section::Methods)
}
