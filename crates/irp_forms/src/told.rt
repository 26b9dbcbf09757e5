//! What stands under the keys of an act, and which call, act on a remove lock or hand it is by that. The entries and
//! word lines of a transcript and the steps of a script tell these in the same way. Source: this project's own format
//! (docs/FORMATS.md).

ghost use Rattle.std.specs.Prelude.{◌≡◌, ◌≤◌, length, option_map};
ghost use Rattle.serde_json.specs.View.{view};
ghost use Rattle.irp_forms.specs.Parts.{keys_in};
ghost use Rattle.irp_forms.specs.Steps.{keys_named};
ghost use Rattle.irp_forms.specs.Told as spec;

use crate::from_value::FromValue;
use crate::key_parts::Part;
use crate::parts::{count_members, has_each};
use crate::step_names::{ActKey, ActKind};
use arrayvec::ArrayVec;
use irp_types::{
    Call, CancelId, DeviceId, DriverId, Hand, LockAct, LockNo, Party, Setting, Status,
};
use serde_json::Value;

/// The most keys that an act has, but for those that every act has.
const MOST_KEYS: usize = 4;

/// What stands under a key of an act. `P` is what names a packet.
#[derive(Clone, Copy)]
pub enum Told<P> {
    Driver(DriverId),
    Device(DeviceId),
    Lock(LockNo),
    Status(Status),
    Party(Party),
    Packet(P),
    Setting(Setting),
    Cancel(Option<CancelId>),
    /// A number below 2^8.
    Byte(u8),
    /// A number below 2^32.
    Number(u32),
    /// A number below 2^64.
    Long(u64),
    /// What is read apart, such as a label.
    Other,
}

impl<P> Default for Told<P> {
    fn default() -> Told<P> {
        Told::Other
    }
}

/// What stands under the keys of an act, in their order.
pub type AllTold<P> = ArrayVec<Told<P>, MOST_KEYS>;

/// What a value under a key that holds this tells, where this is what the packet reads as. None for another form, and
/// for what no key of an act holds.
#[tactic(auto, unfolding(crate::specs::Told::part_at))]
fn part_at<P: Copy>(part: Part, packet: Option<P>, value: &Value) -> Option<Told<P>>
    ensures { result ≡ spec.part_at part packet (view value.now) }
{
    match part {
        Part::Driver => Some(Told::Driver(FromValue::from_value(value)?)),
        Part::Device => Some(Told::Device(FromValue::from_value(value)?)),
        Part::Lock => Some(Told::Lock(FromValue::from_value(value)?)),
        Part::Status => Some(Told::Status(FromValue::from_value(value)?)),
        Part::Party => Some(Told::Party(FromValue::from_value(value)?)),
        Part::Packet => Some(Told::Packet(packet?)),
        Part::Setting => Some(Told::Setting(FromValue::from_value(value)?)),
        Part::CancelOrNull => Some(Told::Cancel(FromValue::from_value(value)?)),
        Part::Size | Part::Major => Some(Told::Byte(FromValue::from_value(value)?)),
        Part::Tag | Part::Seat | Part::Slot => Some(Told::Number(FromValue::from_value(value)?)),
        Part::Word | Part::Information | Part::Token => {
            Some(Told::Long(FromValue::from_value(value)?))
        }
        Part::Label => Some(Told::Other),
        _ => None,
    }
}

/// What stands under a key. None where it isn't there, or its value has another form.
fn part_under<P: Copy>(key: &str, part: Part, packet: Option<P>, value: &Value) -> Option<Told<P>>
    ensures { result ≡ spec.part_under (key.now, part) packet (view value.now) }
{
    part_at(part, packet, value.get(key)?)
}

/// What stands under each of these keys, in their order. None where a key isn't there, or its value has another form.
#[tactic(auto, unfolding(crate::specs::Told::each_told))]
fn each_told<P: Copy>(keys: &[ActKey], packet: Option<P>, value: &Value) -> Option<AllTold<P>>
    requires { length keys.now ≤ 4 }
    ensures { option_map (λ told. told.items) result
        ≡ spec.each_told (keys_named keys.now) packet (view value.now) }
{
    let mut told = ArrayVec::new();
    for key in keys {
        told.push(part_under(key.0, key.1, packet, value)?);
    }
    Some(told)
}

/// What stands under the keys of an act, in their order, where the value is an object with exactly these keys, at most
/// four, and those beside them, which differ; the packet is what its `irp` reads as. A word line gives None for that,
/// since it names no packet. None for another form.
#[tactic(auto, unfolding(crate::specs::Told::told_at))]
pub fn told_at<P: Copy>(
    keys: &[ActKey],
    beside: &[&str],
    packet: Option<P>,
    value: &Value,
) -> Option<AllTold<P>>
    requires { length keys.now ≤ 4 }
    ensures { option_map (λ told. told.items) result
        ≡ spec.told_at (keys_named keys.now) (keys_in beside.now) packet (view value.now) }
{
    if count_members(value) == keys.len() + beside.len() && has_each(value, beside) {
        each_told(keys, packet, value)
    } else {
        None
    }
}

/// What an act of these kinds is, by what stands under its keys. A row has the kind, and behind it in the order of the
/// keys what stands under each and which field that is.
macro_rules! of_rows {
    ($act:ident $told:ident $made:ident $($one:ident [$($holds:ident $field:ident),*];)*) => {
        match $act {
            $(ActKind::$one => match $told {
                &[$(Told::$holds($field)),*] => Some($made::$one { $($field),* }),
                _ => None,
            },)*
            _ => None,
        }
    };
}

/// The call that an act is, by what stands under its keys. None for an act that is no call, and where its call has
/// other fields; none for a finish of a taken packet, which entries and steps tell in different ways.
#[tactic(auto, unfolding(crate::specs::Told::call_of))]
pub fn call_of<P: Copy, T: Copy>(act: ActKind, told: &[Told<P>]) -> Option<Call<P, T>>
    ensures { result ≡ spec.call_of act told.now }
{
    of_rows! { act told Call
        CreateDevice [Driver driver, Lock lock];
        Attach [Device device, Device to];
        Detach [Device lower];
        Delete [Device device];
        Allocate [Byte size];
        Free [Packet irp];
        Cancel [Packet irp];
        Look [Packet irp];
        Reuse [Packet irp, Status status];
        SetNext [Party party, Packet irp, Byte major, Long word];
        CopyToNext [Party party, Packet irp];
        Skip [Party party, Packet irp];
        MarkPending [Party party, Packet irp];
        SetRoutine [Party party, Packet irp, Setting setting];
        CallDriver [Party party, Packet irp, Device target];
        Complete [Party party, Packet irp, Status status, Long information];
        SetCancelRoutine [Party party, Packet irp, Cancel cancel];
    }
}

/// The act on a remove lock that an act is, by what stands under its keys. None for another act, and for other fields.
#[tactic(auto, unfolding(crate::specs::Told::lock_act_of))]
pub fn lock_act_of<P: Copy>(act: ActKind, told: &[Told<P>]) -> Option<LockAct>
    ensures { result ≡ spec.lock_act_of act told.now }
{
    of_rows! { act told LockAct
        Acquire [Lock lock, Number tag];
        Release [Lock lock, Number tag];
        BeginRemove [Lock lock, Number tag];
        Drained [Lock lock];
    }
}

/// The hand that is told so. None for other fields.
#[tactic(auto, unfolding(crate::specs::Told::hand_of))]
pub fn hand_of<P: Copy>(told: &[Told<P>]) -> Option<Hand>
    ensures { result ≡ spec.hand_of told.now }
{
    match told {
        &[Told::Lock(lock), Told::Number(tag), Told::Number(to)] => Some(Hand { lock, tag, to }),
        _ => None,
    }
}
