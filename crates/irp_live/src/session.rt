//! A session: the lines of a transcript that were taken, and their judge.

ghost use Rattle.std.specs.Prelude.{◌≡◌, [], IfOk, OnOk, Err, Some, None, option_map};
ghost use Rattle.serde_json.specs.View.{view};
ghost use Rattle.irp_types.specs.Refusals.{first_refusal};
ghost use Rattle.irp_forms.specs.declared.unread.Unread.TheVariants.{Form};
ghost use Rattle.irp_transcript.specs.Headers.{IsHeader, fixed_of};
ghost use Rattle.irp_transcript.specs.Transcripts.{TranscriptValue};
ghost use Rattle.irp_transcript_reader.specs.Reading.{IsNext, so_far};
ghost use Rattle.irp_transcript_writer.specs.Json.{line_text, or_null};
ghost use Rattle.irp_judge.specs.Checked.{IsVerdictOn};
ghost use Rattle.irp_judge.specs.Looks.{looked};
ghost use Rattle.irp_live.specs.Asking.{question_at as question_in};
ghost use Rattle.irp_live.specs.Sessions.{IsAnswerLine, IsReplyLine, Stands, session_of, wrong_at};
ghost use Rattle.irp_live.specs.Told.{looked_json, refusal_json};

use crate::asking::{LineFault, Question, Unheard, question_at, value_of};
use crate::told::{Faulty, Looked, next_line};
use irp_forms::Unread;
use irp_judge::{Judge, Verdict};
use irp_transcript::Header;
use irp_transcript_reader::{EntryCall, Reading};
use irp_transcript_writer::line_of;
use irp_types::IrpRef;
use serde_json::Value;
use std::alloc::{AllocError, Global};

/// What is read of a transcript so far, and the judge of its entries.
#[derive(Drop)]
pub struct Session<'a> {
    reading: Reading,
    judge: Judge<'a>,
}

impl<'a> Session<'a> {
    /// A session of a transcript of which the header alone is read. It takes no memory.
    pub fn new(alloc: Global, header: &'a Header, reading: Reading) -> Session<'a>
        requires header { IsHeader header.now }
        requires same { reading.header ≡ Some header.now }
        requires none { reading.entries.items ≡ [] }
        ensures told { (session_of result).told ≡ so_far reading }
        ensures stands { Stands (session_of result) }
    {
        Session {
            reading,
            judge: Judge::new(alloc, header),
        }
    }

    /// The number of the entry that isn't legal, if there is one.
    fn wrong_at(&self) -> Option<u64>
        ensures { result ≡ wrong_at (session_of self.now) }
    {
        match self.judge.wrong() {
            Some(wrong) => Some(wrong.at),
            None => None,
        }
    }

    /// Takes a value as the next line of the transcript, and has an entry judged.
    ///
    /// # Errors
    ///
    /// `Unread::Form` where it isn't the next line, and then nothing changes; `Unread::NoMemory` where memory ran out.
    fn take(&mut self, alloc: Global, value: &Value) -> Result<(), Unread>
        requires { Stands (session_of self.now) }
        ensures next { OnOk result (IsNext (session_of self.old).told (view value.now)
            (session_of self.new).told) }
        ensures stands { OnOk result (Stands (session_of self.new)) }
        ensures refused { result ≡ Err Form → (other : TranscriptValue)
            → IsNext (session_of self.old).told (view value.now) other → ⊥ }
        ensures same { result ≡ Err Form → session_of self.new ≡ session_of self.old }
    {
        let before = self.reading.entries.len();
        self.reading.take_value(alloc, value)?;
        if self.reading.entries.len() <= before {
            return Ok(());
        }
        match self.judge.feed(&self.reading.entries[before]) {
            Ok(()) => Ok(()),
            Err(_) => Err(Unread::NoMemory),
        }
    }

    /// The line that answers a value as the next line of the transcript, where it is the line of this number.
    fn next(&mut self, alloc: Global, number: u64, value: &Value) -> Result<Vec<u8>, AllocError>
        requires { Stands (session_of self.now) }
        ensures { IfOk result (λ line. IsAnswerLine None number (session_of self.old)
            (view value.now) (Some line.items) (session_of self.new)) }
    {
        let before = self.wrong_at();
        match self.take(alloc, value) {
            Ok(()) => next_line(alloc, before, self.judge.wrong()),
            Err(Unread::Form) => {
                let fault = LineFault::NoForm;
                line_of(
                    alloc,
                    &Faulty {
                        fault,
                        line: number,
                    },
                )
            }
            Err(Unread::NoMemory) => Err(AllocError),
        }
    }

    /// The line that answers what a call would be refused with now.
    fn would(&self, alloc: Global, called: EntryCall) -> Result<Vec<u8>, AllocError>
        ensures { IfOk result (λ line. line.items ≡ line_text (or_null refusal_json
            (first_refusal (fixed_of (session_of self.now).judge.header)
            (session_of self.now).judge.state called.drained called.call))) }
    {
        line_of(alloc, &self.judge.would(called.call, called.drained))
    }

    /// The line that answers what a Look would be replied with now.
    fn look(&self, alloc: Global, irp: IrpRef) -> Result<Vec<u8>, AllocError>
        ensures { IfOk result (λ line. line.items
            ≡ line_text (looked_json (looked (session_of self.now).judge.state irp))) }
    {
        let reply = self.judge.look(irp);
        line_of(alloc, &Looked { reply })
    }

    /// The line that answers a value as the line of this number; none where it asks for the verdict. The one error is
    /// want of memory.
    pub fn answer(
        &mut self,
        alloc: Global,
        number: u64,
        value: &Value,
    ) -> Result<Option<Vec<u8>>, AllocError>
        requires { Stands (session_of self.now) }
        ensures { IfOk result (λ line. IsAnswerLine (question_in (view value.now)) number
            (session_of self.old) (view value.now) (option_map (λ line. line.items) line)
            (session_of self.new)) }
    {
        match question_at(value) {
            Some(Question::Would(called)) => Ok(Some(self.would(alloc, called)?)),
            Some(Question::Look(irp)) => Ok(Some(self.look(alloc, irp)?)),
            Some(Question::End) => Ok(None),
            None => Ok(Some(self.next(alloc, number, value)?)),
        }
    }

    /// The line that answers the line of this number; none where it asks for the verdict. The one error is want of
    /// memory.
    #[tactic(auto, using(crate::proofs::Replies::reply_gives))]
    pub fn reply(
        &mut self,
        alloc: Global,
        number: u64,
        line: &[u8],
    ) -> Result<Option<Vec<u8>>, AllocError>
        requires { Stands (session_of self.now) }
        ensures { IfOk result (λ said. IsReplyLine number (session_of self.old) line.now
            (option_map (λ said. said.items) said) (session_of self.new)) }
    {
        match value_of(alloc, line) {
            Ok(value) => self.answer(alloc, number, &value),
            Err(Unheard::Fault(fault)) => {
                let said = line_of(
                    alloc,
                    &Faulty {
                        fault,
                        line: number,
                    },
                )?;
                Ok(Some(said))
            }
            Err(Unheard::NoMemory) => Err(AllocError),
        }
    }

    /// The verdict on the entries.
    pub fn verdict(&self) -> Verdict
        requires { Stands (session_of self.now) }
        ensures { IsVerdictOn (session_of self.now).told result }
    {
        self.judge.verdict()
    }
}
