//! What a seat does next.

ghost use Rattle.std.specs.Prelude.{◌≡◌};
ghost use Rattle.irp_machine.specs.Next as spec;

use crate::parts::{Calling, Next, Planned};
use crate::standing::Standing;
use irp_plain::{
    After, Answered, Change, NewLabel, SeatState, Stage, Taken, bound, going, hand, on_lock, only,
    place_of_taken, publish, request, told, withdraw,
};
use irp_script_reader::StepAct;
use irp_steps::{label_of, packet_of};
use irp_transcript::WordReply;
use irp_types::{Call, IrpRef, Reply};

/// The slot from which the token of a finish is to come, where the act is one.
fn slot_of(act: StepAct) -> Option<u32>
    ensures { result ≡ spec.slot_of act }
{
    match act {
        StepAct::Call(Call::FinishTaken { token, .. }) => Some(token),
        _ => None,
    }
}

/// The place of the use that an act finishes, where it finishes one that the seat has.
fn spent_by(taken: &[Taken], act: StepAct) -> Option<usize>
    ensures { result ≡ spec.spent_by taken.now act }
{
    match slot_of(act) {
        Some(slot) => place_of_taken(taken, slot),
        None => None,
    }
}

/// Whether an act is a finish for which the seat has no token.
fn is_tokenless(taken: &[Taken], act: StepAct) -> bool
    ensures { result ≡ spec.is_tokenless taken.now act }
{
    slot_of(act).is_some() && spent_by(taken, act).is_none()
}

/// The number of the use that a seat took, at a place.
fn use_at(taken: &[Taken], place: Option<usize>) -> u64
    ensures { result ≡ spec.use_at taken.now place }
{
    let Some(place) = place else {
        return 0;
    };
    match taken.get(place) {
        Some(taken) => taken.use_no,
        None => 0,
    }
}

/// The call of an act, of this packet and with this token. A look where the act is none.
fn call_with(act: StepAct, irp: IrpRef, token: u64) -> Call
    ensures { result ≡ spec.call_with act irp token }
{
    match act {
        StepAct::Call(call) => call.with(irp, token),
        StepAct::Allocate { size, .. } => Call::Allocate { size },
        _ => Call::Look { irp },
    }
}

/// The call of an act, of this packet.
fn calling(taken: &[Taken], act: StepAct, irp: IrpRef) -> Next
    ensures { result ≡ spec.calling taken.now act irp }
{
    let spends = spent_by(taken, act);
    let call = call_with(act, irp, use_at(taken, spends));
    Next::Calls(Calling { call, spends })
}

/// What an act does next that names this packet.
fn with_packet(standing: &Standing, seat: &SeatState, act: StepAct, irp: IrpRef) -> Next
    ensures { result ≡ spec.with_packet standing.now seat.now act irp }
{
    match act {
        StepAct::Publish { slot, .. } => {
            Next::Changes(publish(standing.slots(), slot, seat.stage(), irp.use_no))
        }
        _ => calling(seat.taken(), act, irp),
    }
}

/// What an act does next that may name a packet by a label.
fn naming(standing: &Standing, seat: &SeatState, planned: Planned) -> Next
    ensures { result ≡ spec.naming standing.now seat.now planned }
{
    let named = packet_of(standing.labels(), planned.act);
    match seat.stage() {
        Stage::Answered(irp) => {
            let label = label_of(planned.act).unwrap_or(0);
            Next::Changes(bound(label, irp))
        }
        Stage::Read(irp) => with_packet(standing, seat, planned.act, irp),
        Stage::Between if planned.reads_alone => Next::Changes(going(Stage::Read(named))),
        _ => with_packet(standing, seat, planned.act, named),
    }
}

/// What a seat does next in an act.
pub fn next_of(standing: &Standing, seat: &SeatState, planned: Planned) -> Next
    ensures { result ≡ spec.next_of standing.now seat.now planned }
{
    match planned.act {
        StepAct::OnLock(act) => Next::Changes(on_lock(standing.words(), seat, act)),
        StepAct::Hand(act) => { Next::Changes(hand(standing.words(), standing.seats(), seat, act)) }
        StepAct::Withdraw { slot } => Next::Changes(withdraw(standing.slots(), slot)),
        StepAct::Request { slot } => {
            Next::Changes(request(standing.slots(), slot, seat.stage()))
        }
        _ => {
            if is_tokenless(seat.taken(), planned.act) {
                return Next::Changes(told(WordReply::NoToken));
            }
            naming(standing, seat, planned)
        }
    }
}

/// The packet that a label is to stand for behind a call, where the act binds one.
fn binding(act: StepAct, reply: Reply) -> Option<NewLabel>
    ensures { result ≡ spec.binding act reply }
{
    match (label_of(act), reply) {
        (Some(label), Reply::Irp(irp)) => Some(NewLabel { label, irp }),
        _ => None,
    }
}

/// How far a seat is behind a call.
fn after_call(alone: bool, bind: Option<NewLabel>, reply: Reply) -> After
    ensures { result ≡ spec.after_call alone bind reply }
{
    match bind {
        Some(label) if alone => After::Binds(Answered::Reply(reply), label.irp),
        _ => After::Told(Answered::Reply(reply)),
    }
}

/// The place of the use that is spent by a finish that was answered so.
fn spent(spends: Option<usize>, reply: Reply) -> Option<usize>
    ensures { result ≡ spec.spent spends reply }
{
    match reply {
        Reply::Done => spends,
        _ => None,
    }
}

/// What a call changes that was answered so, the manager's state aside.
pub fn called(planned: Planned, calling: Calling, reply: Reply) -> Change
    ensures { result ≡ spec.called planned calling reply }
{
    let bind = binding(planned.act, reply);
    let after = after_call(planned.binds_alone, bind, reply);
    Change {
        label: if planned.binds_alone { None } else { bind },
        spends: spent(calling.spends, reply),
        ..only(after)
    }
}
