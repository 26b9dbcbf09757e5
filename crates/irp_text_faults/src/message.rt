//! One fault of a script, in words. A file of its own, since definitions that clauses cite name it.

ghost use Rattle.std.specs.Prelude.{string_bytes};
ghost use Rattle.irp_text_faults.specs.OneLine.{IsOneLine};

use crate::places::Place;
use crate::putting::{put_part, put_place};
use irp_names::Sink;
use irp_script_reader::ScriptRefusal;

/// One thing that is wrong with a script.
#[derive(Drop)]
pub struct FaultMessage {
    /// What `irpx` names: its display is `S4 steps 37`.
    pub refusal: ScriptRefusal,
    /// Where it stands.
    pub place: Place,
    /// What is wrong, what it may be, and a remedy where there is one.
    pub(crate) words: String,
    pub ghost one_line: { IsOneLine (string_bytes words) },
}

impl FaultMessage {
    ghost use Rattle.irp_names.specs.Sinks.{Says};
    ghost use Rattle.irp_text_faults.specs.Told.{message_text};

    /// Puts the message, in one line without a newline: the section and the member, line and column, what is wrong, what
    /// it may be, and a remedy where there is one.
    #[tactic(auto, using(irp_names::proofs::Saying::says_both, crate::proofs::Joining::one_line_both))]
    pub fn write(&self, out: &mut Sink)
        ensures says { Says (message_text self.now) out.old out.new }
        ensures one_line { IsOneLine (message_text self.now) }
    {
        put_part(out, self.refusal);
        put_place(out, self.place);
        out.put(self.words.as_str());
    }
}
