//! Steps and plans as their lines say them: a word, and values in the order of the word's keys or parts.

ghost use Rattle.std.specs.Prelude.{◌≡◌, Decides};
ghost use Rattle.irp_grammar.specs.Saying as spec;
ghost use Rattle.irp_grammar.specs.declared.step_line.Value.TheVariants.{Absent};

use Value::{Absent, Number, Packet, Set};
use irp_forms::{ActKind, StepPlace};
use irp_names::PlanKind;
use irp_script_reader::{Condition, Named, Step, StepAct};
use irp_types::{Call, CancelId, Hand, LockAct, Party, Plan, Setting};

/// What stands under a key of a step, or behind the name of a plan.
#[derive(Clone, Copy, PartialEq, Eq)]
pub enum Value {
    /// Nothing: there is no such key.
    Absent,
    /// Null, for no cancel routine and for no setting.
    Null,
    /// The originator.
    Originator,
    /// A number: of what has numbers, and of a device as a party.
    Number(u64),
    /// A packet, or a label, which has this place among those of the text.
    Packet(Named),
    Set(Setting),
}

impl Value {
    /// Whether there is no such key.
    pub fn is_absent(self) -> bool
        ensures { Decides result (self ≡ Absent) }
    {
        matches!(self, Absent)
    }
}

/// The values of a step's keys, or of a plan's parts, in their order: up to six.
pub type Values = [Value; 6];

/// No values.
pub const NONE: Values = [Absent, Absent, Absent, Absent, Absent, Absent];

/// A step: its seat, its word, the values of its keys, and what it hangs on.
#[derive(Clone, Copy, PartialEq, Eq)]
pub struct StepLine {
    pub seat: u32,
    pub act: ActKind,
    pub values: Values,
    pub condition: Option<Condition>,
}

impl StepLine {
    /// Whether setup may have it.
    pub fn suits_setup(&self) -> bool {
        self.act.place() == StepPlace::Anywhere && self.condition.is_none()
    }
}

/// A plan: its kind, and what follows its name.
#[derive(Clone, Copy, PartialEq, Eq)]
pub struct PlanLine {
    pub kind: PlanKind,
    pub values: Values,
}

/// A party.
fn party_value(party: Party) -> Value
    ensures { result ≡ spec.party_value party }
{
    match party {
        Party::Originator => Value::Originator,
        Party::Device(device) => Number(u64::from(device.0)),
    }
}

/// A cancel routine, or null.
fn cancel_value(cancel: Option<CancelId>) -> Value
    ensures { result ≡ spec.cancel_value cancel }
{
    match cancel {
        Some(id) => Number(u64::from(id.0)),
        None => Value::Null,
    }
}

/// A setting, or null.
fn set_value(set: Option<Setting>) -> Value
    ensures { result ≡ spec.set_value set }
{
    match set {
        Some(setting) => Set(setting),
        None => Value::Null,
    }
}

/// The value that a field is said as, by what it holds.
macro_rules! value {
    (id $field:ident) => { Number(u64::from($field.0)) };
    (short $field:ident) => { Number(u64::from($field)) };
    (long $field:ident) => { Number($field) };
    (packet $field:ident) => { Packet($field) };
    (label $field:ident) => { Packet(Named::Label($field)) };
    (party $field:ident) => { party_value($field) };
    (cancel $field:ident) => { cancel_value($field) };
    (setting $field:ident) => { Set($field) };
    (set $field:ident) => { set_value($field) };
}

/// The first six.
macro_rules! six {
    ($a:expr, $b:expr, $c:expr, $d:expr, $e:expr, $f:expr $(, $more:expr)*) => { [$a, $b, $c, $d, $e, $f] };
}

/// The values that fields are said as, each by what it holds.
macro_rules! values {
    ($($field:ident $holds:ident)*) => {
        six!($(value!($holds $field),)* Absent, Absent, Absent, Absent, Absent, Absent)
    };
}

/// What a value of an enum is said as: the word that has its variant's name, and its fields, each with what it holds, in
/// the order of the word's keys or parts. A row each.
macro_rules! said {
    ($given:ident $of:ident $word:ident; $($name:ident { $($field:ident $holds:ident)* })*) => {
        match $given {
            $($of::$name { $($field),* } => ($word::$name, values!($($field $holds)*)),)*
        }
    };
}

/// What a call is said as. No script has one that allocates: what it allocates has a label.
fn call_said(call: Call<Named, u32>) -> (ActKind, Values)
    ensures { result ≡ spec.call_said call }
{
    said!(call Call ActKind;
        CreateDevice { driver id lock id }
        Attach { device id to id }
        Detach { lower id }
        Delete { device id }
        Allocate { size short }
        Free { irp packet }
        Reuse { irp packet status id }
        SetNext { party party irp packet major short word long }
        CopyToNext { party party irp packet }
        Skip { party party irp packet }
        SetRoutine { party party irp packet setting setting }
        MarkPending { party party irp packet }
        CallDriver { party party irp packet target id }
        Complete { party party irp packet status id information long }
        FinishTaken { irp packet token short status id information long }
        SetCancelRoutine { party party irp packet cancel cancel }
        Cancel { irp packet }
        Look { irp packet }
    )
}

/// What an act on a remove lock is said as.
fn lock_act_said(on: LockAct) -> (ActKind, Values)
    ensures { result ≡ spec.lock_act_said on }
{
    said!(on LockAct ActKind;
        Acquire { lock id tag short }
        Release { lock id tag short }
        BeginRemove { lock id tag short }
        Drained { lock id }
    )
}

/// What a step is said as: its word, and the values of its keys.
fn act_said(act: StepAct) -> (ActKind, Values)
    ensures { result ≡ spec.act_said act }
{
    match act {
        StepAct::Call(call) => call_said(call),
        StepAct::Allocate { size, label } => (ActKind::Allocate, values!(size short label label)),
        StepAct::OnLock(on) => lock_act_said(on),
        StepAct::Hand(Hand { lock, tag, to }) => (
            ActKind::Hand,
            values!(lock id tag short to short),
        ),
        StepAct::Publish { slot, irp } => (ActKind::Publish, values!(slot short irp packet)),
        StepAct::Withdraw { slot } => (ActKind::Withdraw, values!(slot short)),
        StepAct::Request { slot } => (ActKind::Request, values!(slot short)),
    }
}

/// The line of a step.
pub fn line_of(step: Step) -> StepLine
    ensures { result ≡ spec.line_of step }
{
    let (act, values) = act_said(step.act);
    StepLine {
        seat: step.seat,
        act,
        values,
        condition: step.condition,
    }
}

/// The line of a plan.
pub fn plan_line(plan: Plan) -> PlanLine
    ensures { result ≡ spec.plan_line plan }
{
    let (kind, values) = said!(plan Plan PlanKind;
        Finish { status id information long }
        Hold { cancel cancel }
        HoldSlot {}
        Skip {}
        Forward { set set }
        ForwardPend { set set }
    );
    PlanLine { kind, values }
}
