//! Warnings. A file of its own, since definitions that clauses cite name these.

ghost use Rattle.std.specs.Prelude.{string_bytes};
ghost use Rattle.irp_text_faults.specs.OneLine.{IsOneLine};

use irp_names::Sink;
use irp_script_reader::Section;
use irp_text_faults::{Place, put_place, put_section};
use irp_types::{DeviceId, DispatchId, LockNo, Rule};

/// What isn't meant in a step.
#[derive(Clone, Copy)]
pub enum Concern {
    /// No allocate binds this label before.
    Unbound {
        label: usize,
    },
    /// A completion routine of a rule isn't there.
    NoCompletionRoutine {
        rule: Rule,
        number: u32,
        count: u32,
    },
    /// A cancel routine isn't there.
    NoCancelRoutine {
        number: u32,
        count: u32,
    },
    /// A packet has fewer locations than the stack has devices.
    TooShort {
        size: u32,
        devices: u32,
    },
    /// A packet is passed down, and there is no device below.
    NoLower {
        device: DeviceId,
        dispatch: DispatchId,
        major: u8,
    },
    /// A device is deleted that has a neighbour.
    Attached,
    /// A seat gives back what it doesn't hold.
    NotHeld {
        seat: u32,
        lock: LockNo,
    },
    /// The step that it hangs on is never answered so.
    NeverAnswered {
        step: u32,
    },
}

/// One thing in a script that is taken, and is hardly meant.
#[derive(Drop)]
pub struct Warning {
    /// The list with the step, `setup` or `steps`.
    pub section: Section,
    /// The step's place in the list, from 0.
    pub index: usize,
    /// Where it stands.
    pub place: Place,
    /// What isn't meant.
    pub(crate) concern: Concern,
    /// That in words.
    pub(crate) words: String,
    pub ghost one_line: { IsOneLine (string_bytes words) },
}

impl Warning {
    ghost use Rattle.irp_names.specs.Sinks.{Says};
    ghost use Rattle.irp_warnings.specs.Told.{warning_text};

    /// Puts the message, in one line without a newline, which begins with `warning: `.
    pub fn write(&self, out: &mut Sink)
        ensures says { Says (warning_text self.now.place self.now) out.old out.new }
        ensures one_line { IsOneLine (warning_text self.now.place self.now) }
    {
        self.write_at(out, self.place);
    }

    /// The same, with another place: that of the step in the text from which the JSON was made.
    #[tactic(auto, using(irp_names::proofs::Saying::says_both, irp_text_faults::proofs::Joining::one_line_both))]
    pub fn write_at(&self, out: &mut Sink, place: Place)
        ensures says { Says (warning_text place self.now) out.old out.new }
        ensures one_line { IsOneLine (warning_text place self.now) }
    {
        out.put("warning: ");
        put_section(out, self.section, self.index);
        put_place(out, place);
        out.put(self.words.as_str());
    }
}
