//! Steps of a script and what they were answered, in lines.

ghost use Rattle.std.specs.Prelude.{◌≡◌, IfErr, IfOk};
ghost use Rattle.irp_machine.specs.Replays.{StopsShort};
ghost use Rattle.irp_machine.specs.declared.limits.NotMade.TheVariants.{NoStep};
ghost use Rattle.irp_names.specs.Sinks.{Says};
ghost use Rattle.irp_orders.specs.Lines as spec;
ghost use Rattle.irp_orders.specs.Lines.{PutsDiffering, PutsInOrder};

use crate::columns::Columns;
use crate::text::tell;
use irp_listing::WordLineWords;
use irp_machine::{Answered, NotMade, Told, answers_along, line_of};
use irp_names::{PacketWords, PartyWords, ReplyWords, Sink, call_name};
use irp_script_reader::{Named, Step, StepAct};
use irp_transcript::WordLine;
use irp_types::{Call, DeviceId, IrpRef, Party, Reply};
use std::alloc::Global;

/// Puts a packet as a step names it: by its label, or by its reference.
#[tactic(auto, using(irp_names::proofs::Saying::says_both))]
fn put_named(out: &mut Sink, labels: &[String], named: Named)
    ensures { Says (spec.named_text labels.now named) out.old out.new }
{
    match named {
        Named::Irp(irp) => out.show(PacketWords(irp)),
        Named::Label(place) => match labels.get(place) {
            Some(label) => out.put(label.as_str()),
            None => tell(out, "label ", place),
        },
    }
}

/// The device that a call names first, beside its caller.
fn device_named(call: Call) -> Option<DeviceId>
    ensures { result ≡ spec.device_named call }
{
    match call {
        Call::CallDriver { target, .. } => Some(target),
        Call::Delete { device } | Call::Attach { device, .. } => Some(device),
        Call::Detach { lower } => Some(lower),
        _ => None,
    }
}

/// Puts the device and the packet that a call names.
#[tactic(auto, using(irp_names::proofs::Saying::says_both))]
fn put_arguments(out: &mut Sink, labels: &[String], device: Option<DeviceId>, packet: Option<Named>)
    ensures { Says (spec.arguments_text labels.now device packet) out.old out.new }
{
    match (device, packet) {
        (None, None) => {}
        (Some(device), None) => {
            tell(out, "(D", device.0);
            out.put(")");
        }
        (None, Some(packet)) => {
            out.put("(");
            put_named(out, labels, packet);
            out.put(")");
        }
        (Some(device), Some(packet)) => {
            tell(out, "(D", device.0);
            out.put(", ");
            put_named(out, labels, packet);
            out.put(")");
        }
    }
}

/// Puts who makes a call, where the call names a party.
#[tactic(auto, using(irp_names::proofs::Saying::says_both))]
fn put_caller(out: &mut Sink, party: Option<Party>)
    ensures { Says (spec.caller_text party) out.old out.new }
{
    if let Some(party) = party {
        out.show(PartyWords(party));
        out.put(": ");
    }
}

/// The call of a script with numbers of its packet and its token, which have none yet.
fn numbered(call: Call<Named, u32>) -> Call
    ensures { result ≡ spec.numbered call }
{
    call.with(IrpRef { slot: 0, use_no: 0 }, 0)
}

/// Puts a call of a step and its reply.
#[tactic(auto, using(irp_names::proofs::Saying::says_both))]
fn put_call(out: &mut Sink, labels: &[String], named: Call<Named, u32>, reply: Reply)
    ensures { Says (spec.call_text labels.now named reply) out.old out.new }
{
    let call = numbered(named);
    put_caller(out, call.party());
    out.put(call_name(call));
    put_arguments(out, labels, device_named(call), named.packet());
    tell(out, " -> ", ReplyWords { call, reply });
}

/// Puts the allocation of a packet under a label, and its reply.
#[tactic(auto, using(irp_names::proofs::Saying::says_both))]
fn put_allocation(out: &mut Sink, labels: &[String], size: u8, label: usize, reply: Reply)
    ensures { Says (spec.allocation_text labels.now size label reply) out.old out.new }
{
    out.put("IoAllocateIrp as ");
    put_named(out, labels, Named::Label(label));
    let call = Call::Allocate { size };
    tell(out, " -> ", ReplyWords { call, reply });
}

/// Puts an act that the manager answered; nothing of others.
fn put_act(out: &mut Sink, labels: &[String], act: StepAct, reply: Reply)
    ensures { Says (spec.act_text labels.now act reply) out.old out.new }
{
    match act {
        StepAct::Call(call) => put_call(out, labels, call, reply),
        StepAct::Allocate { size, label } => put_allocation(out, labels, size, label, reply),
        _ => {}
    }
}

/// Puts the line of a step that the manager answered.
#[tactic(auto, using(irp_names::proofs::Saying::says_both))]
fn put_reply(out: &mut Sink, labels: &[String], place: u32, step: Step, reply: Reply)
    ensures { Says (spec.reply_line labels.now place step reply) out.old out.new }
{
    tell(out, "    step ", place);
    tell(out, "  seat ", step.seat);
    out.put(": ");
    put_act(out, labels, step.act, reply);
    out.put("\n");
}

/// Puts the line of a step that a remove lock or a cancel slot answered.
#[tactic(auto, using(irp_names::proofs::Saying::says_both))]
fn put_word(out: &mut Sink, line: Option<WordLine>)
    ensures { Says (spec.word_line line) out.old out.new }
{
    if let Some(line) = line {
        tell(out, "    ", WordLineWords(line));
        out.put("\n");
    }
}

/// Puts the line of what a seat was told: the step of that place, and its own answer.
fn put_told(out: &mut Sink, labels: &[String], steps: &[Step], told: Told)
    ensures { Says (spec.told_line labels.now steps.now told) out.old out.new }
{
    let Some(step) = steps.get(told.step as usize) else {
        return;
    };
    match told.answer {
        Answered::Reply(reply) => put_reply(out, labels, told.step, *step, reply),
        Answered::Word(_) => put_word(out, line_of(steps, step.seat, told)),
    }
}

/// Puts the lines of what seats were told, one after another.
fn put_all_told(out: &mut Sink, labels: &[String], steps: &[Step], told: &[Told])
    ensures { Says (spec.told_lines labels.now steps.now told.now) out.old out.new }
{
    for one in told {
        put_told(out, labels, steps, *one);
    }
}

/// Puts each step that is answered along a path of seats, with its own answer, in the order of the answers: none that is
/// passed over.
///
/// # Errors
///
/// `NoStep` where the path can't be made again; `Memory` where memory ran out.
pub fn put_in_order(
    alloc: Global,
    out: &mut Sink,
    columns: &Columns<'_>,
    path: &[u32],
) -> Result<(), NotMade>
    ensures puts { IfOk result (λ done. PutsInOrder columns.now path.now out.old out.new) }
    ensures no_step { IfErr result (λ refusal. refusal ≡ NoStep
        → StopsShort columns.now.script.now path.now) }
{
    let told = answers_along(alloc, columns.script, path)?;
    let steps = columns.script.parts().steps.as_slice();
    put_all_told(out, columns.labels, steps, told.as_slice());
    Ok(())
}

/// Puts the line of what a seat was told, where the answers of this step differ between outcomes.
fn put_differing(out: &mut Sink, columns: &Columns<'_>, told: Told)
    ensures { Says (spec.differing_line columns.now told) out.old out.new }
{
    if columns.tells_step(told.step as usize) {
        let steps = columns.script.parts().steps.as_slice();
        put_told(out, columns.labels, steps, told);
    }
}

/// Puts the lines of the steps whose answers differ between outcomes.
fn put_all_differing(out: &mut Sink, columns: &Columns<'_>, told: &[Told])
    ensures { Says (spec.differing_lines columns.now told.now) out.old out.new }
{
    for one in told {
        put_differing(out, columns, *one);
    }
}

/// Puts the steps that are answered along a path of seats and whose answers differ between outcomes, each with its own
/// answer, in the order of the answers.
///
/// # Errors
///
/// `NoStep` where the path can't be made again; `Memory` where memory ran out.
pub fn put_differing_in_order(
    alloc: Global,
    out: &mut Sink,
    columns: &Columns<'_>,
    path: &[u32],
) -> Result<(), NotMade>
    ensures puts { IfOk result (λ done. PutsDiffering columns.now path.now out.old out.new) }
    ensures no_step { IfErr result (λ refusal. refusal ≡ NoStep
        → StopsShort columns.now.script.now path.now) }
{
    let told = answers_along(alloc, columns.script, path)?;
    put_all_differing(out, columns, told.as_slice());
    Ok(())
}
