// Where records begin.
ghost use Rattle.std.specs.Prelude.{◌≡◌, eqb};
ghost use Rattle.script.specs.declared.Section.{Section};
ghost use Rattle.script.specs.Section.{entry_of};
ghost use Rattle.grammar.specs.Faults.{begins_test};
ghost use Rattle.bounds.specs.Counting.{entry_begun};

use script::Section;
use token_words::Roles;

// The section of which a token of this role begins a record.
pub fn section_begun(role: u8) -> Option<Section>
    ensures { (k : Section) → begins_test k role ≡ eqb (entry_begun result) (entry_of k) }
{
    if Roles::NULL <= role % Roles::BINDING {
        return Some(Section::Nodes);
    }
    match role {
        Roles::INTERFACE => Some(Section::Interfaces),
        Roles::SIGNATURE => Some(Section::Signatures),
        Roles::CLASS => Some(Section::Classes),
        Roles::FIELD => Some(Section::Fields),
        Roles::METHOD => Some(Section::Methods),
        _ => None,
    }
}
