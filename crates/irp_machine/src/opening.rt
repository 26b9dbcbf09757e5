//! Where a script stands before its seats' steps.

ghost use Rattle.std.specs.Prelude.{◌≡◌, ◌<◌, ◌^◌, IfOk, OnOk, length, replicate};
ghost use Rattle.irp_transcript.specs.Headers.{fixed_of};
ghost use Rattle.irp_script_reader.specs.Sound.{IsSound};
ghost use Rattle.irp_machine.specs.Headers.{IsHeaderOf};
ghost use Rattle.irp_machine.specs.Planning.{acts_below};
ghost use Rattle.irp_plain.specs.Seats.{new_seat};
ghost use Rattle.irp_machine.specs.Openings as spec;

use crate::asker::ScriptAsker;
use crate::machine::ScriptMachine;
use crate::planning::acts_of;
use crate::standing::Standing;
use irp_plain::{SeatState, Slot};
use irp_script_reader::{ScriptParts, Step};
use irp_steps::UNBOUND;
use irp_transcript::Header;
use std::alloc::{AllocError, Global};

/// A slot that nobody has touched.
const EMPTY: Slot = Slot {
    flag: false,
    content: 0,
    used: false,
    stands: false,
};

/// So many seats that have made nothing.
#[tactic(auto, using(crate::proofs::Repeats::replicate_push))]
fn new_seats(alloc: Global, seats: u32) -> Result<Vec<SeatState>, AllocError>
    ensures { IfOk result (λ all. all.items ≡ replicate seats new_seat) }
{
    let mut all = Vec::new(alloc);
    for _seat in 0..seats {
        all.push(SeatState::new(alloc)?)?;
    }
    Ok(all)
}

/// The machine of these steps of a script. Labels that others of the rivals bind are read alone, and those that others
/// name are bound alone.
///
/// # Errors
///
/// `AllocError` where memory runs out, or there are 2^32 steps or more.
pub fn machine_of<'a>(
    alloc: Global,
    header: &'a Header,
    script: &'a ScriptParts,
    rivals: &[Step],
    steps: &[Step],
    tells: bool,
) -> Result<ScriptMachine<'a>, AllocError>
    requires headed { IsHeaderOf script.now header.now }
    requires sound { IsSound script.now }
    ensures machine { IfOk result (λ machine. machine ≡ record {
      fixed = fixed_of header.now;
      script = script.now;
      acts = acts_below rivals.now steps.now script.now.seats;
      tells = tells;
    }) }
    ensures few { OnOk result (length steps.now < 2 ^ 32) }
{
    let acts = acts_of(alloc, rivals, steps, script.seats)?;
    let asker = ScriptAsker::new(header, script);
    Ok(ScriptMachine::new(asker, acts, tells))
}

/// Where a script stands before its setup.
pub fn first_standing(
    alloc: Global,
    header: &Header,
    script: &ScriptParts,
) -> Result<Standing, AllocError>
    ensures { IfOk result (λ standing.
        standing ≡ spec.first_standing header.now script.now) }
{
    Standing::new(
        alloc,
        header,
        Vec::from_elem(alloc, UNBOUND, script.labels.len())?,
        Vec::from_elem(alloc, 0u64, header.locks as usize)?,
        Vec::from_elem(alloc, EMPTY, header.form.slots() as usize)?,
        new_seats(alloc, header.seats)?,
    )
}

/// Where a script stands whose setup ended so: nobody has made a step.
pub fn opened(alloc: Global, header: &Header, ended: Standing) -> Result<Standing, AllocError>
    ensures { IfOk result (λ standing.
        standing ≡ spec.begun header.now ended.manager ended.labels) }
{
    let words = Vec::from_elem(alloc, 0u64, header.locks as usize)?;
    let slots = Vec::from_elem(alloc, EMPTY, header.form.slots() as usize)?;
    let seats = new_seats(alloc, header.seats)?;
    Ok(ended.begun(words, slots, seats))
}

/// The seats of steps.
pub fn seats_of(alloc: Global, steps: &[Step]) -> Result<Vec<u32>, AllocError>
    ensures { IfOk result (λ seats. seats.items ≡ spec.seats_of steps.now) }
{
    let mut seats = Vec::new(alloc);
    for step in steps {
        seats.push(step.seat)?;
    }
    Ok(seats)
}
