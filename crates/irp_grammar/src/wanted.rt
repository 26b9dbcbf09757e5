//! What was expected in the place of a word.

ghost use Rattle.std.specs.Prelude.{◌≢◌, []};
ghost use Rattle.std.specs.List.{flat_map};
ghost use Rattle.irp_forms.specs.Steps.{keys_named};
ghost use Rattle.irp_names.specs.Sinks.{Says};
ghost use Rattle.irp_grammar.specs.Faults.{Begins, Ends, IsExpected, SaysAny, SaysOne, key_said, keys_said};

use crate::names::named_as;
use irp_forms::{ActKey, ActKind, Part};
use irp_names::Sink;
use irp_script_reader::{MemberFault, ScriptRefusal, Section};
use std::alloc::Global;

/// What was expected in the place of a word (this project's own rule).
#[derive(Clone, Copy)]
pub enum Wanted {
    /// The form, a count or the heading of a section.
    Heading,
    /// A count that no line above gave.
    Once,
    /// 1, 2 or 3.
    Form,
    /// No slots in form 1.
    FormTwo,
    /// A count, or names.
    Count,
    /// What such a part may be.
    Of(Part),
    Rule,
    Flags,
    Behaviour,
    CancelAnswer,
    Plan,
    /// `is`, behind a step on which another hangs.
    Is,
    /// An answer on which a step hangs.
    Answer,
    /// The word of a step.
    Act,
    /// A key of this step that it doesn't have yet.
    Key(ActKind),
    /// `lock`, behind `stack`.
    StackLock,
    /// A word that may be a name.
    Name,
    /// A name of such a part that no line above gave.
    NewName(Part),
    /// The end of the line.
    Nothing,
    /// Not so long a text.
    Shorter,
    /// UTF-8.
    Utf8,
    /// What a script that is taken has: why this one isn't.
    Script(ScriptRefusal),
    /// The same where a step is at fault.
    Step(ScriptRefusal, StepFault),
}

/// Why a step isn't taken whose line is well formed.
#[derive(Clone, Copy)]
pub enum StepFault {
    /// Its seat isn't there.
    Seat,
    /// It is on a remove lock or a cancel slot, or hangs on anything, and stands in setup.
    Setup,
    /// Form 1 doesn't have it.
    Form,
    /// It hangs on anything, and the form isn't 3.
    FormFour,
    /// It hangs on a step that isn't above, or isn't its seat's.
    Condition,
    /// It hands a reference to its own seat, or to one that isn't there.
    Hand,
    /// It publishes in a cancel slot, or withdraws from one, that isn't its seat's.
    Slot,
}

/// What a step has that is taken, where this one doesn't.
fn step_reason(fault: StepFault) -> &'static str
    ensures { result.now ≢ [] }
{
    match fault {
        StepFault::Seat => "a seat below the number of seats",
        StepFault::Setup => {
            "a step that setup may have: none on a remove lock or a cancel slot, and none with `if`"
        }
        StepFault::Form => "form 2 or 4, which have this step",
        StepFault::FormFour => "form 4, which alone has steps with `if`",
        StepFault::Condition => "an `if` with a step above, of the same seat",
        StepFault::Hand => "a hand to another seat that is there",
        StepFault::Slot =>
            "a slot that is there and is the seat's own: slot k is of seat k modulo seats",
    }
}

/// The word for what has names.
fn part_word(part: Part) -> &'static str {
    match named_as(part) {
        Part::Device => "device",
        Part::Driver => "driver",
        Part::Dispatch => "dispatch",
        Part::Routine => "completion routine",
        Part::Cancel => "cancel routine",
        Part::Lock => "remove lock",
        Part::Slot => "cancel slot",
        Part::Seat => "seat",
        _ => "step",
    }
}

/// How the words for what a part may be begin: with just `a ` where it may be a number or a name.
fn part_words(part: Part) -> &'static str
    ensures { result.now ≢ [] }
{
    match part {
        Part::Device => "a device: D and its number, or a name that a line above gives",
        Part::Routine => {
            "a completion routine: a rule and a number, or a name that a line above gives"
        }
        Part::Tag => "a number below 2^32",
        Part::Size => "a number from 0 to 255",
        Part::Information => "a number below 2^64",
        Part::Major =>
            "a major function code: a name such as IRP_MJ_READ, or a number from 0 to 255",
        Part::Word => "a number below 2^64, or a name such as IRP_MN_START_DEVICE",
        Part::Status => "a status: a name such as STATUS_SUCCESS, or a number below 2^32",
        Part::Party => "a party: o for the originator, or a device",
        Part::Packet => "a packet: its label, or its slot, a point and its use number",
        Part::Label => "a label: 1 to 32 letters, digits or underscores",
        Part::CancelOrNull => "a cancel routine: a number, a name that a line above gives, or none",
        _ => "a ",
    }
}

/// Puts how they end.
#[tactic(auto, using(crate::proofs::Worded::any_both))]
fn put_part(text: &mut Sink, part: Part)
    ensures { SaysAny text.old text.new }
{
    if part_words(part) == "a " {
        text.put(part_word(part));
        text.put(": a number, or a name that a line above gives");
    }
}

/// Puts which name was expected, behind `a `.
#[tactic(auto, using(crate::proofs::Worded::any_both))]
fn put_new(text: &mut Sink, part: Part)
    ensures { SaysAny text.old text.new }
{
    text.put(part_word(part));
    text.put(" name that no line above gives");
}

impl Wanted {
    /// How the words for what was expected begin.
    fn words(self) -> &'static str
        ensures { Begins self result.now }
    {
        match self {
            Wanted::Heading => {
                "form, seats, locks, slots, completions, cancels, dispatches, drivers, setup or steps"
            }
            Wanted::Once => "a heading that no line above has",
            Wanted::Form => "1, 2 or 4",
            Wanted::FormTwo => "form 2 or 4, which have slots",
            Wanted::Count => "a number, or names",
            Wanted::Rule => "a rule: watch, change, keeper, keep_on_error or free",
            Wanted::Flags => "flags: some of s, e and c in this order, or -",
            Wanted::Behaviour => "a behaviour: continue, keep or replace",
            Wanted::CancelAnswer => "finish or leave",
            Wanted::Plan => "a plan: finish, hold, hold_slot, skip, forward or forward_pend",
            Wanted::Is => "is",
            Wanted::Answer => {
                "an answer: success, refused, routine, none, true, false, done, a word such as taken or yes, \
                 or the name of a status or of a refusal"
            }
            Wanted::Act => "a step such as allocate, stack, or seat and a seat",
            Wanted::StackLock => "lock",
            Wanted::Name => {
                "a name: a letter or underscore, then letters, digits or underscores, 32 in all; \
                 no word that means something here"
            }
            Wanted::Nothing => "the end of the line",
            Wanted::Shorter => "a text of at most 1,048,576 bytes",
            Wanted::Utf8 => "UTF-8",
            Wanted::Of(part) => part_words(part),
            Wanted::NewName(_) => "a ",
            Wanted::Key(_) => "a key of ",
            Wanted::Script(refusal) => reason(refusal),
            Wanted::Step(_, fault) => step_reason(fault),
        }
    }

    /// Puts how they end.
    #[tactic(auto, using(crate::proofs::Worded::says_keys))]
    fn write_rest(self, alloc: Global, text: &mut Sink)
        ensures { SaysOne (Ends self) text.old text.new }
    {
        match self {
            Wanted::Of(part) => put_part(text, part),
            Wanted::NewName(part) => put_new(text, part),
            Wanted::Key(act) => put_keys(text, act),
            Wanted::Script(refusal) | Wanted::Step(refusal, _) => put_refusal(alloc, text, refusal),
            _ => {}
        }
    }

    /// Puts what was expected.
    #[tactic(auto, using(crate::proofs::Worded::says_expected))]
    pub fn write(self, alloc: Global, text: &mut Sink)
        ensures { SaysOne (IsExpected self) text.old text.new }
    {
        text.put(self.words());
        self.write_rest(alloc, text);
    }
}

/// Puts a refusal as it is displayed. It is displayed apart first: no clause says what `show` leaves of a text.
fn put_shown(alloc: Global, text: &mut Sink, refusal: ScriptRefusal)
    ensures { SaysAny text.old text.new }
{
    let mut shown = Sink::new(alloc);
    shown.show(refusal);
    match shown.finish() {
        Ok(words) => text.put(words.as_str()),
        Err(_) => text.run_out(),
    }
}

/// Puts why a script is refused.
#[tactic(auto, using(crate::proofs::Worded::any_between))]
fn put_refusal(alloc: Global, text: &mut Sink, refusal: ScriptRefusal)
    ensures { SaysAny text.old text.new }
{
    text.put(" (");
    put_shown(alloc, text, refusal);
    text.put(")");
}

/// Puts keys, each behind a blank.
fn put_each(text: &mut Sink, keys: &[ActKey])
    ensures { Says (flat_map key_said (keys_named keys.now)) text.old text.new }
{
    for key in keys {
        text.put(" ");
        text.put(key.0);
    }
}

/// Puts the word of an act, and its keys.
#[tactic(auto, using(crate::proofs::Worded::says_act))]
fn put_keys(text: &mut Sink, act: ActKind)
    ensures { Says (keys_said act) text.old text.new }
{
    text.put(act.word());
    text.put(", each once:");
    put_each(text, act.keys());
}

/// What a script that is taken has, where one that is refused so doesn't.
fn reason(refusal: ScriptRefusal) -> &'static str
    ensures { result.now ≢ [] }
{
    match refusal {
        ScriptRefusal::At { fault, section, .. } => reason_at(fault, section),
        ScriptRefusal::TooLong => "a script whose JSON has at most 1,048,576 bytes",
        ScriptRefusal::NotJson | ScriptRefusal::BadForm => "a script",
    }
}

/// The same for a fault in a section.
fn reason_at(fault: MemberFault, section: Section) -> &'static str
    ensures { result.now ≢ [] }
{
    match (fault, section) {
        (MemberFault::BadField, Section::Seats) => "1 to 64 seats",
        (MemberFault::BadField, Section::Locks) => "1 to 64 remove locks",
        (MemberFault::BadField, Section::Slots) => "0 to 64 cancel slots",
        (MemberFault::BadField, Section::Dispatches) =>
            "a plan of this form: form 1 has no hold_slot",
        (MemberFault::BadField, _) => "a step that the script may have",
        (MemberFault::RuleBroken, Section::Completions) => {
            "behaviours of the rule: watch continues twice, change continues or replaces, \
             keeper keeps twice, keep_on_error continues and then keeps; \
             what replaces is a status that completes"
        }
        (MemberFault::RuleBroken, _) => {
            "a finish with a status that completes, so neither STATUS_PENDING nor \
             STATUS_MORE_PROCESSING_REQUIRED, and a forward with a watch"
        }
        (MemberFault::NoRoutine, _) => "a routine that the text has",
        (MemberFault::BadDispatch, _) => {
            "dispatches that the text has, and majors up to IRP_MJ_PNP, each once"
        }
        (MemberFault::TooMany, Section::Completions) => "at most 256 completion routines of a rule",
        (MemberFault::TooMany, Section::Cancels) => "at most 256 cancel routines",
        (MemberFault::TooMany, Section::Dispatches) => "at most 256 dispatches",
        (MemberFault::TooMany, Section::Drivers) => "at most 64 drivers",
        (MemberFault::TooMany, _) => "at most 4,096 labels",
    }
}
