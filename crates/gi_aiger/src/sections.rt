// The sections of lines, one after another.
ghost use Rattle.std.specs.Prelude.{◌≡◌, ◌∷◌};
ghost use Rattle.gi_aiger.specs.Sections.{behind, first_left, left_in, next_of};

use crate::head::{Form, Head};
use crate::row::Section;
use crate::taken::Taken;

// How many lines of a section are still to come.
fn left_in(head: &Head, taken: &Taken, section: Section) -> u64
    ensures { result ≡ left_in head.now taken.now section }
{
    match section {
        Section::Input => head.inputs.saturating_sub(taken.inputs.len() as u64),
        Section::Latch => head.latches.saturating_sub(taken.latches.len() as u64),
        Section::Out => head.outs.saturating_sub(taken.outs.len() as u64),
        Section::Bad => head.bads.saturating_sub(taken.bads.len() as u64),
        Section::Con => head.cons.saturating_sub(taken.cons.len() as u64),
        Section::Size => head.justice.saturating_sub(taken.sizes.len() as u64),
        Section::Justice => u64::from(taken.total).saturating_sub(taken.justice.len() as u64),
        Section::Fair => head.fair.saturating_sub(taken.fair.len() as u64),
        Section::Gate => head.gates.saturating_sub(taken.gates.len() as u64),
    }
}

// The section behind one.
fn next_of(form: Form, section: Section) -> Option<Section>
    ensures { result ≡ next_of form section }
{
    match section {
        Section::Input => Some(Section::Latch),
        Section::Latch => Some(Section::Out),
        Section::Out => Some(Section::Bad),
        Section::Bad => Some(Section::Con),
        Section::Con => Some(Section::Size),
        Section::Size => Some(Section::Justice),
        Section::Justice => Some(Section::Fair),
        Section::Fair => match form {
            Form::Ascii => Some(Section::Gate),
            Form::Binary => None,
        },
        Section::Gate => None,
    }
}

/// The section of the next line, at this one or behind it. None exactly where all lines up to the symbols, or up to binary
/// gates, are there.
pub fn next_section(head: &Head, taken: &Taken, section: Section) -> Option<Section>
    ensures { result ≡ first_left head.now taken.now (section ∷ behind head.now.form section) }
{
    let mut here = Some(section);
    'sections: while let Some(s) = here {
        if left_in(head, taken, s) > 0 {
            return Some(s);
        }
        here = next_of(head.form, s);
    }
    None
}
