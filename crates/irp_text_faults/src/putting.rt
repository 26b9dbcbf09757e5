//! Where a fault stands, put into words.
#![tactic(auto, using(crate::proofs::Joining::one_line_both, crate::proofs::Joining::one_number))]

ghost use Rattle.irp_names.specs.Sinks.{Says};
ghost use Rattle.irp_text_faults.specs.OneLine.{IsOneLine};
ghost use Rattle.irp_text_faults.specs.Told.{member_text, named_text, part_text, place_text, section_text};

use crate::places::Place;
use crate::top::key_of;
use irp_names::Sink;
use irp_script_reader::{ScriptRefusal, Section};

/// Puts the part that a refusal names.
pub(crate) fn put_part(out: &mut Sink, refusal: ScriptRefusal)
    ensures says { Says (part_text refusal) out.old out.new }
    ensures one_line { IsOneLine (part_text refusal) }
{
    if let ScriptRefusal::At { section, index, .. } = refusal {
        put_section(out, section, index);
    }
}

/// Puts which member of a section is meant; nothing of a number.
fn put_member(out: &mut Sink, section: Section, index: usize)
    ensures says { Says (member_text section index) out.old out.new }
    ensures one_line { IsOneLine (member_text section index) }
{
    if matches!(section, Section::Seats | Section::Locks | Section::Slots) {
        return;
    }
    out.put("[");
    out.number(index as u64);
    out.put("]");
}

/// Puts a section that has a key, and which of its members is meant.
fn put_named(out: &mut Sink, section: Section, index: usize)
    ensures says { Says (named_text section index) out.old out.new }
    ensures one_line { IsOneLine (named_text section index) }
{
    out.put(key_of(section));
    put_member(out, section, index);
    out.put(", ");
}

/// Puts a section, and which of its members is meant; nothing of the top.
pub fn put_section(out: &mut Sink, section: Section, index: usize)
    ensures says { Says (section_text section index) out.old out.new }
    ensures one_line { IsOneLine (section_text section index) }
{
    match section {
        Section::Top => {}
        other => put_named(out, other, index),
    }
}

/// Puts a place.
pub fn put_place(out: &mut Sink, place: Place)
    ensures says { Says (place_text place) out.old out.new }
    ensures one_line { IsOneLine (place_text place) }
{
    out.put("line ");
    out.number(place.line as u64);
    out.put(", column ");
    out.number(place.column as u64);
    out.put(": ");
}
