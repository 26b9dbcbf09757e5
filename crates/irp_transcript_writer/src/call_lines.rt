//! The forms of calls. Source: this project's own format (docs/FORMATS.md).
#![tactic(auto, unfolding(json::specs::Print::escape_byte))]

ghost use Rattle.std.specs.Prelude.{◌≡◌, ◌++◌, true, false, None, OnOk};
ghost use Rattle.serde_json.specs.Written.{compact_text};
ghost use Rattle.irp_types.specs.Calls.{names_party};
ghost use Rattle.irp_transcript_writer.specs.Lines.{call_json};

use crate::rows::{Part, put_row};
use irp_types::{Call, LockNo};
use std::alloc::AllocError;

/// Every call of a party, a row each, the commonest first, since a guess looks for a name in this order: which call it
/// is, with its fields; the members that its entry tells before its name; the name; and the members behind it, in the
/// order in which they are written. A member is its key, what it holds, and which value that is. A macro makes code of
/// the rows, here for the writer and in irp_fast_reader for the guess. Beside what that macro wants it is given the
/// names that its function has for the values that stand before a name.
#[macro_export]
macro_rules! each_party_call {
    ($table:ident $given:tt $party:ident $cancel:ident) => {
        $table! { $given
            Complete { party: $party, irp, status, information } ["by" party $party] "complete"
                ["information" number information "irp" irp irp "status" id status];
            CallDriver { party: $party, irp, target } ["by" party $party] "call_driver"
                ["irp" irp irp "target" id target];
            SetNext { party: $party, irp, major, word } ["by" party $party] "set_next"
                ["irp" irp irp "major" number major "word" number word];
            Skip { party: $party, irp } ["by" party $party] "skip" ["irp" irp irp];
            CopyToNext { party: $party, irp } ["by" party $party] "copy_to_next" ["irp" irp irp];
            MarkPending { party: $party, irp } ["by" party $party] "mark_pending" ["irp" irp irp];
            SetRoutine { party: $party, irp, setting } ["by" party $party] "set_routine"
                ["irp" irp irp "set" setting setting];
            SetCancelRoutine { party: $party, irp, cancel: $cancel }
                ["by" party $party "cancel" cancel $cancel] "set_cancel_routine" ["irp" irp irp];
        }
    };
}

/// Every other call, a row each, likewise. It is also given the names of the entry's lock and of whether that was
/// known to be drained, which only a delete tells.
#[macro_export]
macro_rules! each_other_call {
    ($table:ident $given:tt $device:ident $lock:ident $drained:ident) => {
        $table! { $given
            Allocate { size } [] "allocate" ["size" number size];
            Free { irp } [] "free" ["irp" irp irp];
            Cancel { irp } [] "cancel" ["irp" irp irp];
            Look { irp } [] "look" ["irp" irp irp];
            Reuse { irp, status } [] "reuse" ["irp" irp irp "status" id status];
            FinishTaken { irp, token, status, information } [] "finish_taken"
                ["information" number information "irp" irp irp "status" id status "token" number token];
            CreateDevice { driver, lock: new } [] "create_device" ["driver" id driver "lock" own new];
            Attach { device: $device, to } ["device" id $device] "attach" ["to" id to];
            Detach { lower } [] "detach" ["lower" id lower];
            Delete { device: $device } ["device" id $device] "delete" ["drained" flag $drained "lock" lock $lock];
        }
    };
}

/// What stands under a key, by what it holds.
macro_rules! part {
    (id $value:ident) => { Part::Number($value.0 as u64) };
    (number $value:ident) => { Part::Number($value as u64) };
    (flag $value:ident) => { Part::Flag($value) };
    (party $value:ident) => { Part::Party($value) };
    (irp $value:ident) => { Part::Irp($value) };
    (own $value:ident) => { Part::Lock(Some($value)) };
    (lock $value:ident) => { Part::Lock($value) };
    (cancel $value:ident) => { Part::Cancel($value) };
    (setting $value:ident) => { Part::Setting($value) };
}

/// Writes a row's members, the name among them.
macro_rules! members {
    ($out:ident [] $name:literal [$key:literal $holds:ident $value:ident $($more:tt)*]) => {
        members!($out ((concat!("{\"do\":\"", $name, "\",\"", $key, "\":"), part!($holds $value))) $($more)*)
    };
    ($out:ident [$first:literal $holds:ident $value:ident $($before:literal $as:ident $given:ident)*]
        $name:literal [$key:literal $under:ident $behind:ident $($more:tt)*]) => {
        members!($out ((concat!("{\"", $first, "\":"), part!($holds $value)),
            $((concat!(",\"", $before, "\":"), part!($as $given)),)*
            (concat!(",\"do\":\"", $name, "\",\"", $key, "\":"), part!($under $behind))) $($more)*)
    };
    ($out:ident ($($front:tt)*) $($key:literal $holds:ident $value:ident)*) => {
        put_row($out, &[$($front)* $(, (concat!(",\"", $key, "\":"), part!($holds $value)))*])
    };
}

/// Writes the call, by these rows; for a call that has no row this.
macro_rules! written {
    (($out:ident $call:ident $none:expr)
        $($variant:ident $fields:tt $before:tt $name:literal $behind:tt;)*) => {
        match $call {
            $(Call::$variant $fields => members!($out $before $name $behind),)*
            _ => $none,
        }
    };
}

/// Writes a call that names a party.
fn put_party_call(out: &mut Vec<u8>, call: Call) -> Result<(), AllocError>
    requires { names_party call ≡ true }
    ensures { OnOk result (out.new.items ≡ out.old.items
        ++ compact_text (call_json call None false)) }
{
    each_party_call!(written (out call Ok(())) party cancel)
}

/// Writes an entry's call, from the call and the entry's `lock` and `drained`, which only a delete tells. The one error
/// is want of memory.
pub fn put_call(
    out: &mut Vec<u8>,
    call: Call,
    lock: Option<LockNo>,
    drained: bool,
) -> Result<(), AllocError>
    ensures { OnOk result (out.new.items ≡ out.old.items
        ++ compact_text (call_json call lock drained)) }
{
    each_other_call!(written (out call put_party_call(out, call)) device lock drained)
}
