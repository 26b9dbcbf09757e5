//! The lines of an entry.

ghost use Rattle.std.specs.Prelude.{◌≡◌, ◌++◌, codes, string_bytes, IfSome, OnOk, Some};
ghost use Rattle.std.specs.List.{flat_map, repeat};
ghost use Rattle.irp_listing.specs.Blocks.{block_of, indented, outcome_line, question_lines};
ghost use Rattle.irp_listing.specs.Heads.{answer_text, caller_text, head_text, refused_text, seat_text};
ghost use Rattle.irp_listing.specs.Stacks.{held};

use crate::lines::{put_further, put_head};
use crate::outcome::{OutcomeWords, moves, outcome_of, sends};
use crate::questions::QuestionWords;
use crate::stacks::Stacks;
use irp_names::{
    AnsweredWords, CallWords, PartyWords, RefusalWords, ReplyWords, refusal_meaning, refusal_name,
};
use irp_types::{Asked, Call, Entry, Refusal, Reply};
use std::alloc::AllocError;
use std::fmt;

/// Who made which call, and what was answered, where that is all there is to say.
#[derive(Clone, Copy)]
struct HeadWords<'a> {
    entry: &'a Entry,
    tells_seat: bool,
    /// Whether it is a completion that a right driver leaves out.
    is_left_out: bool,
}

impl fmt::Display for HeadWords<'_> {
    ghost output = { λ words. Some (head_text words.tells_seat words.is_left_out words.entry.now) };

    fn fmt<W: fmt::Write>(&self, f: &mut fmt::Formatter<W>) -> fmt::Result {
        let Entry {
            call,
            drained,
            seat,
            ..
        } = *self.entry;
        let seat = SeatWords {
            seat,
            is_told: self.tells_seat,
        };
        write!(
            f,
            "{}{}{}",
            seat,
            CallerWords { call, drained },
            AnswerWords(*self)
        )
    }
}

/// The seat of an entry, where it is told.
#[derive(Clone, Copy)]
struct SeatWords {
    seat: u32,
    is_told: bool,
}

impl fmt::Display for SeatWords {
    ghost output = { λ words. Some (seat_text words.is_told words.seat) };

    fn fmt<W: fmt::Write>(&self, f: &mut fmt::Formatter<W>) -> fmt::Result {
        if self.is_told {
            write!(f, "seat {}  ", self.seat)
        } else {
            f.write_str("")
        }
    }
}

/// What stands behind the call.
#[derive(Clone, Copy)]
struct AnswerWords<'a>(HeadWords<'a>);

impl fmt::Display for AnswerWords<'_> {
    ghost output = { λ words. Some (answer_text words.0.is_left_out words.0.entry.now
        words.0.entry.now.reply) };

    fn fmt<W: fmt::Write>(&self, f: &mut fmt::Formatter<W>) -> fmt::Result {
        let HeadWords {
            entry,
            is_left_out,
            ..
        } = self.0;
        let Entry { call, reply, .. } = *entry;
        match reply {
            Reply::Done => f.write_str(""),
            Reply::Refused(refusal) => {
                let words = RefusedWords {
                    call,
                    refusal,
                    is_left_out,
                };
                write!(f, " -> refused: {}", words)
            }
            _ if sends(call, entry.asked.as_slice()) => f.write_str(""),
            _ => write!(f, " -> {}", ReplyWords { call, reply }),
        }
    }
}

/// A refusal; of a completion that a right driver leaves out, as such.
#[derive(Clone, Copy)]
struct RefusedWords {
    call: Call,
    refusal: Refusal,
    is_left_out: bool,
}

impl fmt::Display for RefusedWords {
    ghost output = { λ words. Some (refused_text words.is_left_out words.call words.refusal) };

    fn fmt<W: fmt::Write>(&self, f: &mut fmt::Formatter<W>) -> fmt::Result {
        let RefusedWords { call, refusal, .. } = *self;
        if self.is_left_out {
            write!(
                f,
                "{}, {} (a right driver makes no such call: its cancel routine was gone)",
                refusal_name(refusal),
                refusal_meaning(refusal)
            )
        } else {
            write!(f, "{}", RefusalWords { call, refusal })
        }
    }
}

/// A call behind the party that makes it, where it names one.
#[derive(Clone, Copy)]
pub struct CallerWords {
    pub call: Call,
    pub drained: bool,
}

impl fmt::Display for CallerWords {
    ghost output = { λ words. Some (caller_text words.call words.drained) };

    fn fmt<W: fmt::Write>(&self, f: &mut fmt::Formatter<W>) -> fmt::Result {
        let CallerWords { call, drained } = *self;
        let words = CallWords { call, drained };
        match call.party() {
            Some(party) => write!(f, "{}: {}", PartyWords(party), words),
            None => write!(f, "{}", words),
        }
    }
}

/// Puts as many steps of indentation into the words, in place of what they were. The one error is want of memory.
fn indent(words: &mut String, steps: usize) -> Result<(), AllocError>
    ensures { OnOk result (string_bytes words.new ≡ repeat steps (codes "  ")) }
{
    words.clear();
    for _step in 0..steps {
        words.push_str("  ")?;
    }
    Ok(())
}

/// Puts a further line: what is shown, behind as many steps of indentation. The one error is want of memory.
pub(crate) fn put_shown<D: fmt::Display + Copy>(
    out: &mut Vec<u8>,
    words: &mut String,
    steps: usize,
    shown: D,
) -> Result<(), AllocError>
    ensures { OnOk result (IfSome (D.output shown)
        (λ text. out.new.items ≡ out.old.items ++ indented steps text)) }
{
    indent(words, steps)?;
    write!(words, "{}", shown)?;
    put_further(out, words.as_str())
}

/// Puts the two lines of a question: what was asked, and what was answered. They are indented by the place of the
/// device in its stack. The one error is want of memory.
fn put_question(
    out: &mut Vec<u8>,
    words: &mut String,
    stacks: &Stacks,
    question: Asked,
) -> Result<(), AllocError>
    ensures { OnOk result
        (out.new.items ≡ out.old.items ++ question_lines (held stacks.now.above) question) }
{
    let depth = stacks.depth_of(question.shown().device);
    put_shown(out, words, depth, QuestionWords(question))?;
    put_shown(out, words, depth + 2, AnsweredWords(question))
}

/// Puts the lines of all questions, in order. The one error is want of memory.
fn put_questions(
    out: &mut Vec<u8>,
    words: &mut String,
    stacks: &Stacks,
    questions: &[Asked],
) -> Result<(), AllocError>
    ensures { OnOk result (out.new.items
        ≡ out.old.items ++ flat_map (question_lines (held stacks.now.above)) questions.now) }
{
    for question in questions {
        put_question(out, words, stacks, *question)?;
    }
    Ok(())
}

/// Puts the line that tells where the packet is after a call that moved it. The one error is want of memory.
fn put_outcome(out: &mut Vec<u8>, words: &mut String, entry: &Entry) -> Result<(), AllocError>
    ensures { OnOk result (out.new.items ≡ out.old.items ++ outcome_line entry.now) }
{
    if !moves(entry) {
        return Ok(());
    }
    let Entry { call, reply, .. } = *entry;
    let shown = OutcomeWords {
        outcome: outcome_of(entry),
        call,
        reply,
    };
    put_shown(out, words, 1, shown)
}

/// Puts the block of an entry: a line with its number, the call and the answer, two lines for each question, and one
/// that tells where the packet is then. The one error is want of memory.
pub(crate) fn put_block(
    out: &mut Vec<u8>,
    words: &mut String,
    stacks: &Stacks,
    tells_seat: bool,
    entry: &Entry,
) -> Result<(), AllocError>
    ensures { OnOk result (out.new.items ≡ out.old.items
        ++ block_of tells_seat (held stacks.now.lost) (held stacks.now.above) entry.now) }
{
    words.clear();
    let head = HeadWords {
        entry,
        tells_seat,
        is_left_out: stacks.is_left_out(entry),
    };
    write!(words, "{}", head)?;
    put_head(out, entry.number, words.as_str())?;
    put_questions(out, words, stacks, entry.asked.as_slice())?;
    put_outcome(out, words, entry)
}
