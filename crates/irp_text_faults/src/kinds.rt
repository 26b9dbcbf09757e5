//! Parts that have several kinds: questions, plans, answers and replies (docs/FORMATS.md).

use crate::part::{Body, Kind, Part};

/// Kinds, a row each: the part, `one` or `two` for the first form that has it, its name, and how it is made.
macro_rules! kinds {
    ($($of:ident $form:ident $name:literal $body:tt;)*) => {
        [$(Kind { of: Part::$of, name: $name, two: kinds!(form $form), body: kinds!(body $body) }),*]
    };
    (form one) => { false };
    (form two) => { true };
    (body text) => { Body::Text };
    (body {$($key:literal $part:ident)*}) => { Body::Keys(&[$(($key, Part::$part)),*]) };
    (body ($($part:ident)* $line:literal $script:literal)) => { Body::Items(&[$(Part::$part),*], $line, $script) };
}

/// The kinds of each part, in the order in which they are told.
static KINDS: [Kind; 62] = kinds! {
    Question one "cancel" {"answer" CancelAnswer "cancel" CancelRoutine "shown" Shown};
    Question one "completion" {"answer" CompletionAnswer "completion" Completion "shown" Shown};
    Question one "dispatch" {"dispatch" Dispatch "plan" Plan "shown" Shown};
    Plan one "finish" (Status Information "[\"finish\",status,information]" "it is [\"finish\",status,information]");
    Plan one "hold" (CancelRoutineOrNull "[\"hold\",cancel]" "it is [\"hold\",cancel]; a cancel routine is a number or null");
    Plan two "hold_slot" ("[\"hold_slot\"]" "nothing follows it");
    Plan one "skip" ("[\"skip\"]" "nothing follows it");
    Plan one "forward" (SettingOrNull "[\"forward\",setting]" "it is followed by a setting or null");
    Plan one "forward_pend" (SettingOrNull "[\"forward_pend\",setting]" "it is followed by a setting or null");
    CompletionAnswer one "continue" (Mark ReplacementOrNull "[\"continue\",mark,replace]" "");
    CompletionAnswer one "keep" (Mark ReplacementOrNull "[\"keep\",mark,replace]" "");
    CancelAnswer one "finish" (Information "[\"finish\",information]" "it is [\"finish\",information]");
    CancelAnswer one "leave" ("[\"leave\"]" "it is [\"leave\"]");
    Behaviour one "continue" text;
    Behaviour one "keep" text;
    Behaviour one "replace" (Status Information "" "a replacement is [\"replace\",status,information]");
    Reply one "done" text;
    Reply one "cancelled" {"cancelled" Cancelled};
    Reply one "device" {"device" Device};
    Reply one "irp" {"irp" Packet};
    Reply one "previous" {"previous" CancelRoutineOrNull};
    Reply one "refused" {"refused" Refusal};
    Reply one "seen" {"seen" Seen};
    Reply one "status" {"status" Status};
    WordReply one "ok" text;
    WordReply one "seat_full" text;
    WordReply one "not_held" text;
    WordReply one "already_removing" text;
    WordReply one "no_lock" text;
    WordReply one "yes" text;
    WordReply two "standing" text;
    WordReply two "lost" text;
    WordReply two "nothing" text;
    WordReply two "used" text;
    WordReply two "not_standing" text;
    WordReply two "no_slot" text;
    WordReply two "no_token" text;
    WordReply one "busy" {"busy" Word};
    WordReply one "status" {"status" WordStatus};
    WordReply two "taken" {"taken" Use};
    Answer one "refused" text;
    Answer one "success" text;
    Answer one "routine" text;
    Answer one "done" text;
    Answer one "yes" text;
    Answer one "busy" text;
    Answer one "seat_full" text;
    Answer one "not_held" text;
    Answer one "already_removing" text;
    Answer one "no_lock" text;
    Answer one "standing" text;
    Answer one "taken" text;
    Answer one "lost" text;
    Answer one "nothing" text;
    Answer one "used" text;
    Answer one "not_standing" text;
    Answer one "no_slot" text;
    Answer one "no_token" text;
    Answer one "refused" {"refused" AnswerRefusal};
    Answer one "status" {"status" AnswerStatus};
    Answer one "previous" {"previous" AnswerRoutine};
    Answer one "cancelled" {"cancelled" AnswerCancelled};
};

/// Every kind. No other function names the table, since a check reads it whole at each that does.
pub fn kinds() -> &'static [Kind] {
    &KINDS
}

/// Whether a part has this kind.
pub fn has_kind(part: Part, kind: Kind) -> bool {
    part as usize == kind.of as usize
}
