//! The parts of scripts and of transcripts' lines: what each may be, and what it is, in the words of docs/FORMATS.md.

use crate::part::Shape;

/// A part of a script or of a transcript's line. The tables below say what it may be, and what it is.
#[derive(Clone, Copy)]
pub enum Part {
    Any,
    Device,
    DeviceOrNull,
    Driver,
    Dispatch,
    Lock,
    LockOrNull,
    Status,
    Slot,
    Step,
    Tag,
    Location,
    Routine,
    CancelRoutine,
    CancelRoutineOrNull,
    Seat,
    Size,
    Major,
    Word,
    Information,
    Context,
    Use,
    Token,
    EntryNumber,
    Drained,
    Cancelled,
    Cancel,
    PendingReturned,
    HasLower,
    Marked,
    Mark,
    Party,
    Owner,
    Rule,
    CancelRule,
    Flags,
    Refusal,
    Packet,
    Setting,
    SettingOrNull,
    Replacement,
    ReplacementOrNull,
    Call,
    Question,
    Asked,
    Shown,
    Plan,
    Completion,
    CompletionAnswer,
    CancelAnswer,
    Reply,
    Seen,
    Entry,
    WordLine,
    WordReply,
    WordStatus,
    Header,
    HeaderTwo,
    Form,
    Locks,
    Seats,
    Slots,
    Cancels,
    Completions,
    Count,
    Dispatches,
    Counts,
    NamedCount,
    Drivers,
    Table,
    Member,
    DriverMajor,
    ScriptOne,
    ScriptTwo,
    ScriptFour,
    ScriptStep,
    ScriptRoutine,
    Behaviour,
    ScriptDriver,
    Handler,
    HandledMajor,
    To,
    Label,
    LabelOrPair,
    StepCancel,
    Condition,
    Comparison,
    EarlierStep,
    Answer,
    AnswerStatus,
    AnswerRoutine,
    AnswerRefusal,
    AnswerCancelled,
}

/// Parts, a row each: what it may be, and what it is.
macro_rules! parts {
    ($($part:ident ($($shape:tt)*) $noun:literal;)*) => { [$((Part::$part, parts!(shape $($shape)*), $noun)),*] };
    (shape Items $($part:ident)*) => { Shape::Items(&[$(Part::$part),*]) };
    (shape Keys $($key:literal $part:ident)*) => { Shape::Keys(&[$(($key, Part::$part)),*]) };
    (shape Each $part:ident $most:expr) => { Shape::Each(Part::$part, $most) };
    (shape OrNull $part:ident) => { Shape::OrNull(Part::$part) };
    (shape $shape:ident) => { Shape::$shape };
    (shape $shape:ident $($value:expr),*) => { Shape::$shape($($value),*) };
}

/// A part's row.
type Row = (Part, Shape, &'static str);

/// The parts of which numbers, truth values and texts are made. Where its shape has words, its noun stands before them.
static PLAIN: [Row; 51] = parts! {
    Device (Short) "a device";
    Driver (Short) "a driver";
    Dispatch (Short) "a dispatch";
    Lock (Short) "a lock";
    Status (Short) "a status";
    Slot (Short) "a slot";
    Step (Short) "a step";
    Tag (Short) "a tag";
    Location (Short) "a location";
    Routine (Short) "a routine's number";
    CancelRoutine (Short) "a cancel routine";
    NamedCount (Short) "a count";
    Word (Long) "a word";
    Information (Long) "information";
    Context (Long) "a context";
    Use (Long) "a use number";
    EntryNumber (Long) "an entry's number";
    Token (UseNumber) "a token is a use number, below 18446744073709551616";
    Size (Within 0, 255) "a size";
    Major (Within 0, 255) "a major";
    Count (Within 0, 256) "a count";
    DriverMajor (Within 0, 27) "a driver's major";
    Slots (Within 0, 64) "slots";
    Locks (Within 1, 64) "locks";
    Seats (Within 1, 64) "seats";
    Seat (Seat) "a seat";
    Drained (Truth) "drained";
    Cancelled (Truth) "cancelled";
    Cancel (Truth) "cancel";
    PendingReturned (Truth) "pending_returned";
    HasLower (Truth) "has_lower";
    Marked (Truth) "marked";
    Mark (Truth) "mark";
    WordStatus (OneOf &[0, 0xc000_0056]) "a status is 0 or 3221225558 here";
    Form (OneOf &[1, 2]) "a form is 1 or 2";
    Party (TextOrShort &["o"]) "a party is \"o\" or a device, a number below 4294967296";
    Owner (TextOrShort &["o", "ended"]) "an owner is \"o\", \"ended\" or a device, a number below 4294967296";
    Rule (Rule) "a completion routine's rule is \"watch\", \"change\", \"keeper\", \"keep_on_error\" or \"free\"";
    CancelRule (Text &["must_finish", "must_leave", "either"])
        "a cancel routine's rule is \"must_finish\", \"must_leave\" or \"either\"";
    Flags (Flags) "flags are some of the letters s, e, c, in this order, each at most once";
    Refusal (Refusal) "a refusal is a name from the checks in docs/RULES.md";
    HandledMajor (Within 0, 255) "";
    To (Short) "";
    Label (Label) "";
    LabelOrPair (LabelOrPair) "";
    Comparison (Text &["is", "is_not"]) "";
    EarlierStep (Short) "";
    AnswerStatus (Short) "";
    AnswerRoutine (OrNull CancelRoutine) "";
    AnswerRefusal (Refusal) "";
    AnswerCancelled (Truth) "";
};

/// The parts that are made of others. Of one that may be null the other one's words stand before that.
static MADE: [Row; 41] = parts! {
    DeviceOrNull (OrNull Device) "";
    LockOrNull (OrNull Lock) "";
    CancelRoutineOrNull (OrNull CancelRoutine) "";
    StepCancel (OrNull CancelRoutine) "";
    SettingOrNull (OrNull Setting) "";
    ReplacementOrNull (OrNull Replacement) "";
    Packet (Items Slot Use) "a packet is [slot,use]";
    Setting (Items Rule Routine Context Flags) "a setting is [rule,no,context,flags]";
    Replacement (Items Status Information) "a replacement is [status,information]";
    Completion (Items Rule Routine) "a completion routine is [rule,no]";
    Shown (Items DeviceOrNull Slot Use Major Location Word Status Information PendingReturned Cancel Context HasLower)
        "shown is [device,slot,use,major,location,word,status,information,pending_returned,cancel,context,has_lower]";
    Seen (Items Owner Location Status Information Cancel CancelRoutineOrNull PendingReturned Marked)
        "seen is [owner,current,status,information,cancel,cancel_routine,pending_returned,marked]";
    Completions (Items Count Count Count Count Count) "completions is [watch,change,keeper,keep_on_error,free]";
    Counts (Items NamedCount NamedCount NamedCount NamedCount NamedCount NamedCount)
        "a dispatch's counts are [watch,change,keeper,keep_on_error,free,cancel]";
    Member (Items DriverMajor Dispatch) "a member of a driver's table is [major,dispatch]";
    Cancels (Each CancelRule 256) "cancels is a list of at most 256 rules of cancel routines";
    Dispatches (Each Counts 256) "dispatches is a list of the counts of at most 256 dispatches";
    Drivers (Each Table 64) "drivers is a list of the tables of at most 64 drivers";
    Table (Each Member usize::MAX) "a driver's table is a list of at most 28 members [major,dispatch]";
    Asked (Each Question usize::MAX) "asked is a list of questions";
    Question (Kinds "this question") "a question";
    Reply (Kinds "this reply") "a reply";
    WordReply (Kinds "this answer") "an answer";
    Plan (Kinds "") "a plan";
    CompletionAnswer (Kinds "") "an answer";
    CancelAnswer (Kinds "") "an answer";
    Call (Act) "a call";
    WordLine (Act) "a step";
    Entry (Keys "asked" Asked "call" Call "n" EntryNumber "reply" Reply "seat" Seat) "an entry";
    Header (Keys "cancels" Cancels "completions" Completions "dispatches" Dispatches "drivers" Drivers "form" Form
        "locks" Locks "seats" Seats) "a header";
    HeaderTwo (Keys "cancels" Cancels "completions" Completions "dispatches" Dispatches "drivers" Drivers "form" Form
        "locks" Locks "seats" Seats "slots" Slots) "a header of form 2";
    ScriptOne (Keys "form" Any "seats" Any "locks" Any "completions" Any "cancels" Any "dispatches" Any "drivers" Any
        "setup" Any "steps" Any) "a script of form 1";
    ScriptTwo (Keys "form" Any "seats" Any "locks" Any "slots" Any "completions" Any "cancels" Any "dispatches" Any
        "drivers" Any "setup" Any "steps" Any) "a script of form 2";
    ScriptFour (Keys "form" Any "seats" Any "locks" Any "slots" Any "completions" Any "cancels" Any "dispatches" Any
        "drivers" Any "setup" Any "steps" Any) "a script of form 4";
    ScriptStep (Act) "a step";
    ScriptRoutine (Items Rule Behaviour Behaviour) "";
    Behaviour (Kinds "") "";
    ScriptDriver (Each Handler usize::MAX) "";
    Handler (Items HandledMajor Dispatch) "";
    Condition (Items Comparison EarlierStep Answer) "";
    Answer (Kinds "") "";
};

/// How parts of scripts are told, a row each: how one is shown that stands in a list, and what it is. One without words
/// has those of a transcript.
macro_rules! told {
    ($($part:ident $shown:literal $words:literal;)*) => { [$((Part::$part, $shown, $words)),*] };
}

/// How a part of a script is told.
type Telling = (Part, &'static str, &'static str);

/// The parts that scripts have.
static TOLD: [Telling; 40] = told! {
    Seat "" "a seat is a number below \"seats\"";
    Driver "" "a driver is a number below 4294967296, its place in \"drivers\" from 0";
    Lock "" "a remove lock is a number below 4294967296";
    Device "" "a device is a number below 4294967296, in the order of creation";
    To "" "it is a number below 4294967296";
    Size "" "a size is a number from 0 to 255, one location for each device";
    Label "" "a label has 1 to 32 letters, digits or underscores";
    LabelOrPair "" "a packet is a label in quotation marks, or [slot,use]";
    Party "" "a party is \"o\", the originator, or a device's number";
    Major "" "a major function code is a number from 0 to 255";
    Slot "" "a cancel slot is a number below 4294967296";
    StepCancel "" "a cancel routine is a number below 4294967296, its place in \"cancels\", or null";
    Status "the status" "a status is a number below 4294967296";
    Information "the information" "information is a number below 18446744073709551616";
    Word "" "a word is a number below 18446744073709551616";
    Tag "" "a tag is a number below 4294967296";
    Context "the context" "a context is a number below 18446744073709551616";
    CancelRoutineOrNull "the cancel routine" "it is a number below 4294967296, its place in \"cancels\", or null";
    Routine "the routine's number" "it is a number below 4294967296, counted within its rule";
    HandledMajor "the major function code" "it is a number from 0 to 27";
    Dispatch "the dispatch" "it is a number below 4294967296, its place in \"dispatches\"";
    Rule "the rule" "a rule is \"watch\", \"change\", \"keeper\", \"keep_on_error\" or \"free\"";
    Flags "the text of the flags" "it has letters of \"sec\" in this order: on success, on error, on cancel";
    Setting "" "a setting is [rule,number,context,flags]";
    SettingOrNull "" "a setting is [rule,number,context,flags]";
    Plan "the plan"
        "a plan is \"finish\", \"hold\", \"skip\", \"forward\" or \"forward_pend\", in forms 2 and 4 \"hold_slot\"";
    CancelAnswer "the answer" "a cancel routine answers [\"finish\",information] or [\"leave\"]";
    Behaviour "the behaviour" "it is \"continue\", \"keep\" or [\"replace\",status,information]";
    ScriptRoutine "" "a completion routine is [rule,on_ok,on_err]";
    ScriptDriver "" "a driver is a list of [major,dispatch]";
    Handler "" "a driver is a list of [major,dispatch]";
    ScriptStep "this" "a step is an object with \"seat\", \"do\" and the keys of what it does";
    Condition "" "a condition is [\"is\",step,answer] or [\"is_not\",step,answer]";
    Comparison "the first word" "a condition begins with \"is\" or \"is_not\"";
    EarlierStep "the step" "it is the place of an earlier step in \"steps\", from 0";
    Answer "the answer"
        "it is a word such as \"success\", \"refused\", \"routine\", \"done\" or \"taken\", or an object with one of \"refused\", \"status\", \"previous\" and \"cancelled\"";
    AnswerStatus "the status" "a status is a number below 4294967296";
    AnswerRoutine "the cancel routine" "it is a number below 4294967296, its place in \"cancels\", or null";
    AnswerRefusal "" "it is the name of a refusal, as \"Ended\"";
    AnswerCancelled "" "it is true or false";
};

/// The row of a part, in one of these tables.
fn row_in(rows: &'static [Row], part: Part) -> Option<Row> {
    for row in rows {
        if row.0 as usize == part as usize {
            return Some(*row);
        }
    }
    None
}

/// Every part that stands alone. No other function names the table, since a check reads it whole at each that does.
fn plain() -> &'static [Row] {
    &PLAIN
}

/// Every part that is made of others.
fn made() -> &'static [Row] {
    &MADE
}

/// What a part may be, and its noun or its words.
fn row_of(part: Part) -> (Shape, &'static str) {
    match (row_in(plain(), part), row_in(made(), part)) {
        (Some((_, shape, noun)), _) | (None, Some((_, shape, noun))) => (shape, noun),
        (None, None) => (Shape::Any, ""),
    }
}

/// What a part may be: of one that may be null that of the other, where the value isn't null.
pub fn shape_for(part: Part, is_null: bool) -> Shape {
    match row_of(part).0 {
        Shape::OrNull(_) if is_null => Shape::Any,
        Shape::OrNull(inner) => row_of(inner).0,
        other => other,
    }
}

/// What a part may be.
pub fn shape_of(part: Part) -> Shape {
    row_of(part).0
}

/// What a part of a transcript is: its noun where its shape has words or it has several kinds, else all its words.
pub fn noun_of(part: Part) -> &'static str {
    row_of(part).1
}

/// Every telling. No other function names the table.
fn tellings() -> &'static [Telling] {
    &TOLD
}

/// How a part of a script is shown that stands in a list, and what it is.
pub fn told_of(part: Part) -> (&'static str, &'static str) {
    for (one, shown, words) in tellings() {
        if *one as usize == part as usize {
            return (*shown, *words);
        }
    }
    ("", "")
}
