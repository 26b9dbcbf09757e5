//! Acts by their words: the calls of the manager, and what is done with remove locks and cancel slots. A step of a
//! script does one, and an entry or a word line of a transcript tells one. Source: this project's own format
//! (docs/FORMATS.md); for the names in Windows the WDK, by the title of each routine's page.

ghost use Rattle.std.specs.Prelude.{◌≡◌, ◌<◌, ◌≤◌, [], Some, get_or, length, map, nat_le, true};
ghost use Rattle.std.specs.List.{list_all};
ghost use Rattle.irp_forms.specs.Steps.{kind_of};
ghost use Rattle.irp_forms.specs.Steps as spec;
ghost use Rattle.irp_forms.specs.Acts as acts;

use crate::key_parts::Part;
use irp_types::Call;

/// The kind of an act: what a step does, by its word.
#[derive(Clone, Copy, PartialEq, Eq)]
pub enum ActKind {
    CreateDevice,
    Attach,
    Detach,
    Delete,
    Allocate,
    Free,
    Cancel,
    Look,
    Reuse,
    SetNext,
    CopyToNext,
    Skip,
    MarkPending,
    SetRoutine,
    CallDriver,
    Complete,
    SetCancelRoutine,
    Acquire,
    Release,
    BeginRemove,
    Drained,
    Hand,
    Publish,
    Withdraw,
    Request,
    FinishTaken,
}

/// Every kind of act, in the order of the enum, a row each: which it is, its word, the routine of Windows that it
/// stands for (else its own word), and its name in docs/RULES.md; then for a call its checks, in order and behind those
/// of the party that it names, and what it is answered, both as that page has them; then where a script may have it, and
/// its keys there, in the order in which they are written, with what stands under each; then its keys in a call's entry
/// and in a word line, none where it has no such. A macro makes a table of them, here and in irp_text_faults.
#[macro_export]
macro_rules! each_act {
    ($table:ident) => {
        $table! {
            CreateDevice "create_device" "IoCreateDevice" "CreateDevice"
                "NoDriver, NoLock, Full" "CreateDevice answers the next number"
                Anywhere ["driver" Driver "lock" Lock] ["do" Any "driver" Driver "lock" Lock] [];
            Attach "attach" "IoAttachDeviceToDeviceStack" "Attach"
                "NoDevice, DeviceGone, NoDevice, DeviceGone, SameStack, StillAttached, TooDeep"
                "Attach answers the former top of the stack"
                Anywhere ["device" Device "to" Device] ["device" Device "do" Any "to" Device] [];
            Detach "detach" "IoDetachDevice" "Detach"
                "NoDevice, DeviceGone, NothingAttached" "Detach answers the device that stood just above"
                Anywhere ["lower" Device] ["do" Any "lower" Device] [];
            Delete "delete" "IoDeleteDevice" "Delete"
                "NoDevice, DeviceGone, StillAttached, InFlight, NotDrained" "the call answers done"
                Anywhere ["device" Device] ["device" Device "do" Any "drained" Drained "lock" LockOrNull] [];
            Allocate "allocate" "IoAllocateIrp" "Allocate"
                "BadSize, Full" "Allocate answers a slot that is not live, and the next use number"
                Anywhere ["size" Size "as" Label] ["do" Any "size" Size] [];
            Free "free" "IoFreeIrp" "Free"
                "NoIrp, Stale, InFlight" "the call answers done"
                Anywhere ["irp" Packet] ["do" Any "irp" Packet] [];
            Cancel "cancel" "IoCancelIrp" "Cancel"
                "NoIrp, Stale, Ended" "Cancel answers whether there was a cancel routine"
                Anywhere ["irp" Packet] ["do" Any "irp" Packet] [];
            Look "look" "look at" "Look"
                "NoIrp, Stale" "Look answers what the packet holds"
                Anywhere ["irp" Packet] ["do" Any "irp" Packet] [];
            Reuse "reuse" "IoReuseIrp" "Reuse"
                "NoIrp, Stale, InFlight, Full" "Reuse answers the same slot, and the next use number"
                Anywhere ["irp" Packet "status" Status] ["do" Any "irp" Packet "status" Status] [];
            SetNext "set_next" "IoGetNextIrpStackLocation" "SetNext"
                "AfterSkip, TooShort, BadMajor" "the call answers done"
                Anywhere ["by" Party "irp" Packet "major" Major "word" Word]
                ["by" Party "do" Any "irp" Packet "major" Major "word" Word] [];
            CopyToNext "copy_to_next" "IoCopyCurrentIrpStackLocationToNext" "CopyToNext"
                "NoLocation, AfterSkip, TooShort" "the call answers done"
                Anywhere ["by" Party "irp" Packet] ["by" Party "do" Any "irp" Packet] [];
            Skip "skip" "IoSkipCurrentIrpStackLocation" "Skip"
                "NoLocation, AfterSkip, CancelRoutineSet" "the call answers done"
                Anywhere ["by" Party "irp" Packet] ["by" Party "do" Any "irp" Packet] [];
            MarkPending "mark_pending" "IoMarkIrpPending" "MarkPending"
                "NoLocation, AfterSkip" "the call answers done"
                Anywhere ["by" Party "irp" Packet] ["by" Party "do" Any "irp" Packet] [];
            SetRoutine "set_routine" "IoSetCompletionRoutine" "SetRoutine"
                "AfterSkip, NotPrepared, NoRoutine" "the call answers done"
                Anywhere ["by" Party "irp" Packet "set" Setting] ["by" Party "do" Any "irp" Packet "set" Setting] [];
            CallDriver "call_driver" "IoCallDriver" "CallDriver"
                "NoDevice, DeviceGone, WrongTarget, NotPrepared, TooShort, CancelRoutineSet"
                "PENDING where a dispatch held or pended, else the status of the finish that ended the descent"
                Anywhere ["by" Party "irp" Packet "target" Device]
                ["by" Party "do" Any "irp" Packet "target" Device] [];
            Complete "complete" "IoCompleteRequest" "Complete"
                "NoLocation, AfterSkip, BadStatus, CancelRoutineSet" "the call answers done"
                Anywhere ["by" Party "irp" Packet "status" Status "information" Information]
                ["by" Party "do" Any "information" Information "irp" Packet "status" Status] [];
            SetCancelRoutine "set_cancel_routine" "IoSetCancelRoutine" "SetCancelRoutine"
                "NoLocation, AfterSkip, NoRoutine, AlreadyCancelled"
                "SetCancelRoutine answers the routine that was set, or none"
                Anywhere ["by" Party "irp" Packet "cancel" CancelOrNull]
                ["by" Party "cancel" CancelRoutineOrNull "do" Any "irp" Packet] [];
            Acquire "acquire" "IoAcquireRemoveLock" "Acquire"
                "" ""
                Steps ["lock" Lock "tag" Tag]
                [] ["do" Any "lock" Lock "reply" WordReply "seat" Seat "step" Step "tag" Tag];
            Release "release" "IoReleaseRemoveLock" "Release"
                "" ""
                Steps ["lock" Lock "tag" Tag]
                [] ["do" Any "lock" Lock "reply" WordReply "seat" Seat "step" Step "tag" Tag];
            BeginRemove "begin_remove" "IoReleaseRemoveLockAndWait" "BeginRemove"
                "" ""
                Steps ["lock" Lock "tag" Tag]
                [] ["do" Any "lock" Lock "reply" WordReply "seat" Seat "step" Step "tag" Tag];
            Drained "drained" "drained" "Drained"
                "" ""
                Steps ["lock" Lock] [] ["do" Any "lock" Lock "reply" WordReply "seat" Seat "step" Step];
            Hand "hand" "hand" "Hand"
                "" ""
                FormTwo ["lock" Lock "tag" Tag "to" Seat]
                [] ["do" Any "lock" Lock "reply" WordReply "seat" Seat "step" Step "tag" Tag "to" Seat];
            Publish "publish" "publish" "Publish"
                "" ""
                FormTwo ["slot" Slot "irp" Packet] [] ["do" Any "reply" WordReply "seat" Seat "slot" Slot "step" Step];
            Withdraw "withdraw" "withdraw" "Withdraw"
                "" ""
                FormTwo ["slot" Slot] [] ["do" Any "reply" WordReply "seat" Seat "slot" Slot "step" Step];
            Request "request" "request" "Request"
                "" ""
                FormTwo ["slot" Slot] [] ["do" Any "reply" WordReply "seat" Seat "slot" Slot "step" Step];
            FinishTaken "finish_taken" "IoCompleteRequest" "FinishTaken"
                "NoIrp, Stale, Ended, NotSlotHeld, BadStatus" "the call answers done"
                FormTwo ["irp" Packet "slot" Slot "status" Status "information" Information]
                ["do" Any "information" Information "irp" Packet "status" Status "token" Token]
                ["do" Any "reply" WordReply "seat" Seat "slot" Slot "step" Step];
        }
    };
}

/// The names of acts.
macro_rules! of_forms {
    ($($act:ident $word:literal $windows:literal $rules:literal $checks:literal $answer:literal
        $place:ident [$($keys:tt)*] [$($call:tt)*] [$($line:tt)*];)*) => {
        [$((ActKind::$act, $word, $windows, $rules, $checks, $answer)),*]
    };
}

/// The places and the keys of acts.
macro_rules! of_keys {
    ($($act:ident $word:literal $windows:literal $rules:literal $checks:literal $answer:literal
        $place:ident [$($key:literal $part:ident)*] [$($call:tt)*] [$($line:tt)*];)*) => {
        [$((StepPlace::$place, &[$(($key, Part::$part)),*])),*]
    };
}

/// Which scripts may have an act, and where.
#[derive(Clone, Copy, PartialEq, Eq)]
pub enum StepPlace {
    /// Any of them, in `setup` too.
    Anywhere,
    /// Any of them, in `steps` alone: it is on a remove lock.
    Steps,
    /// One of form 2 or 4, in `steps` alone.
    FormTwo,
}

/// A key of an act, and what stands under it.
pub type ActKey = (&'static str, Part);

/// An act's row.
type Form = (
    ActKind,
    &'static str,
    &'static str,
    &'static str,
    &'static str,
    &'static str,
);

/// The names of every act.
static ACTS: [Form; 26] = each_act!(of_forms);

/// Where a script may have an act, and its keys there.
type Keyed = (StepPlace, &'static [ActKey]);

/// The place and the keys of every act.
static KEYS: [Keyed; 26] = each_act!(of_keys);

/// Every row. No other function names the table, since a check reads it whole at each that does.
#[tactic(auto, unfolding(crate::specs::Steps::act_rows, crate::specs::Acts::every_act, crate::specs::Acts::windows_name, crate::specs::Acts::rules_name, crate::specs::Acts::checks_of, crate::specs::Acts::answer_of))]
fn forms() -> &'static [Form]
    ensures rows { map (λ form. (form.1.now, form.0)) result.now ≡ spec.act_rows }
    ensures words { map (λ form. form.1.now) result.now ≡ map (λ row. row.0) spec.act_rows }
    ensures windows { map (λ form. form.2.now) result.now ≡ map acts.windows_name acts.every_act }
    ensures rules { map (λ form. form.3.now) result.now ≡ map acts.rules_name acts.every_act }
    ensures checks { map (λ form. form.4.now) result.now ≡ map acts.checks_of acts.every_act }
    ensures answers { map (λ form. form.5.now) result.now ≡ map acts.answer_of acts.every_act }
    ensures count { length result.now ≡ 26 }
{
    &ACTS
}

/// The place and the keys in every row. No other function names that table.
#[tactic(auto, unfolding(crate::specs::Acts::every_act, crate::specs::Acts::place_of, crate::specs::Steps::step_keys))]
fn keyed() -> &'static [Keyed]
    ensures places { map (λ row. row.0) result.now ≡ map acts.place_of acts.every_act }
    ensures keys { map (λ row. spec.keys_named row.1.now) result.now ≡ spec.step_keys }
    ensures few { list_all (λ row. nat_le (length row.1.now) 4) result.now ≡ true }
    ensures count { length result.now ≡ 26 }
{
    &KEYS
}

/// The place and the keys in the row at a place of these.
fn keyed_at(rows: &'static [Keyed], at: usize) -> Keyed
    requires within { at < length rows.now }
    requires few { list_all (λ row. nat_le (length row.1.now) 4) rows.now ≡ true }
    ensures place { result.0 ≡ get_or (map (λ row. row.0) rows.now) at StepPlace.Anywhere }
    ensures keys { spec.keys_named result.1.now
        ≡ get_or (map (λ row. spec.keys_named row.1.now) rows.now) at [] }
    ensures few { length result.1.now ≤ 4 }
{
    rows[at]
}

/// The act of the first of these rows that has this word.
fn act_among(forms: &[Form], word: &str) -> Option<ActKind>
    ensures { result ≡ spec.under word.now (map (λ form. (form.1.now, form.0)) forms.now) }
{
    for form in forms {
        if word == form.1 {
            return Some(form.0);
        }
    }
    None
}

/// The row at a place of these.
fn row_at(forms: &'static [Form], at: usize) -> Form
    requires { at < length forms.now }
    ensures word { result.1.now ≡ get_or (map (λ form. form.1.now) forms.now) at [] }
    ensures windows { result.2.now ≡ get_or (map (λ form. form.2.now) forms.now) at [] }
    ensures rules { result.3.now ≡ get_or (map (λ form. form.3.now) forms.now) at [] }
    ensures checks { result.4.now ≡ get_or (map (λ form. form.4.now) forms.now) at [] }
    ensures answer { result.5.now ≡ get_or (map (λ form. form.5.now) forms.now) at [] }
{
    forms[at]
}

/// The act at a place of these rows. None behind the last.
fn act_at(forms: &[Form], place: usize) -> Option<ActKind>
    ensures { result ≡ spec.placed place (map (λ form. (form.1.now, form.0)) forms.now) }
{
    Some(forms.get(place)?.0)
}

impl ActKind {
    /// The act that a word names. None where it names none.
    #[tactic(auto, unfolding(crate::specs::Steps::act_named))]
    pub fn named(word: &str) -> Option<ActKind>
        ensures { result ≡ spec.act_named word.now }
    {
        act_among(forms(), word)
    }

    /// The act at a place, from 0, in the order of the enum. None behind the last.
    #[tactic(auto, unfolding(crate::specs::Steps::act_at))]
    pub fn at(place: usize) -> Option<ActKind>
        ensures { result ≡ spec.act_at place }
    {
        act_at(forms(), place)
    }

    /// Its word, which JSON has under `do`.
    #[tactic(auto, unfolding(crate::specs::Steps::act_word))]
    pub fn word(self) -> &'static str
        ensures { result.now ≡ spec.act_word self }
    {
        row_at(forms(), self as usize).1
    }

    /// The routine of Windows that it stands for; where it stands for none its own word, of Look `look at`. SetNext
    /// stands for what a driver does with the location that IoGetNextIrpStackLocation gives.
    pub fn windows_name(self) -> &'static str
        ensures { result.now ≡ acts.windows_name self }
    {
        row_at(forms(), self as usize).2
    }

    /// Its name in docs/RULES.md (this project's own).
    pub fn rules_name(self) -> &'static str
        ensures { result.now ≡ acts.rules_name self }
    {
        row_at(forms(), self as usize).3
    }

    /// A call's checks in docs/RULES.md, in order: the names of refusals, with commas between them. Those of a party
    /// that it names come before. Of an act that is no call nothing.
    pub fn checks(self) -> &'static str
        ensures { result.now ≡ acts.checks_of self }
    {
        row_at(forms(), self as usize).4
    }

    /// What a call is answered, in the words of docs/RULES.md. Of an act that is no call nothing.
    pub fn answer(self) -> &'static str
        ensures { result.now ≡ acts.answer_of self }
    {
        row_at(forms(), self as usize).5
    }

    /// Which scripts may have it, and where.
    pub fn place(self) -> StepPlace
        ensures { result ≡ acts.place_of self }
    {
        keyed_at(keyed(), self as usize).0
    }

    /// Its keys in a script but for those that every step has, in the order in which they are written, with what stands
    /// under each: at most four.
    #[tactic(auto, unfolding(crate::specs::Steps::keys_of))]
    pub fn keys(self) -> &'static [ActKey]
        ensures keys { spec.keys_named result.now ≡ spec.keys_of self }
        ensures few { length result.now ≤ 4 }
    {
        keyed_at(keyed(), self as usize).1
    }
}

/// The kind of act that this call is.
pub fn kind_of(call: Call) -> ActKind
    ensures { result ≡ kind_of call }
{
    match call {
        Call::CreateDevice { .. } => ActKind::CreateDevice,
        Call::Attach { .. } => ActKind::Attach,
        Call::Detach { .. } => ActKind::Detach,
        Call::Delete { .. } => ActKind::Delete,
        Call::Allocate { .. } => ActKind::Allocate,
        Call::Free { .. } => ActKind::Free,
        Call::Cancel { .. } => ActKind::Cancel,
        Call::Look { .. } => ActKind::Look,
        Call::Reuse { .. } => ActKind::Reuse,
        Call::SetNext { .. } => ActKind::SetNext,
        Call::CopyToNext { .. } => ActKind::CopyToNext,
        Call::Skip { .. } => ActKind::Skip,
        Call::MarkPending { .. } => ActKind::MarkPending,
        Call::SetRoutine { .. } => ActKind::SetRoutine,
        Call::CallDriver { .. } => ActKind::CallDriver,
        Call::Complete { .. } => ActKind::Complete,
        Call::SetCancelRoutine { .. } => ActKind::SetCancelRoutine,
        Call::FinishTaken { .. } => ActKind::FinishTaken,
    }
}

/// Each act is the first whose word it has: no two acts have one word.
#[tactic(auto, unfolding(crate::specs::Steps::act_rows, crate::specs::Steps::act_word, crate::specs::Steps::act_named))]
pub fn acts_are_named_apart()
    ensures { (one : ActKind) → spec.act_named (spec.act_word one) ≡ Some one }
{}
