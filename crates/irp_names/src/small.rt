//! Devices, packets, parties and routines.

ghost use Rattle.std.specs.Prelude.{◌≡◌, Some, map};
ghost use Rattle.irp_forms.specs.Names.{rule_name, rules};
ghost use Rattle.irp_names.specs.Small.{device_text, hex_text, owner_text, packet_text, party_text, routine_text, told_if};

use irp_forms::HasName;
use irp_types::{DeviceId, IrpRef, Owner, Party, RoutineId};
use std::fmt;

/// The slot that a label stands for where it isn't bound (this project's own format, docs/FORMATS.md).
const UNBOUND: usize = 4_294_967_295;

/// A number, as `0x2a`.
#[derive(Clone, Copy)]
pub(crate) struct Hex(pub u64);

impl fmt::Display for Hex {
    ghost output = { λ words. Some (hex_text words.0) };

    fn fmt<W: fmt::Write>(&self, f: &mut fmt::Formatter<W>) -> fmt::Result {
        write!(f, "0x{:x}", self.0)
    }
}

/// These words where a flag is set, and nothing where it isn't.
pub fn told_if(flag: bool, words: &'static str) -> &'static str
    ensures { result.now ≡ told_if flag words.now }
{
    if flag { words } else { "" }
}

/// A device, as `D1`; the originator where there is none.
#[derive(Clone, Copy)]
pub struct DeviceWords(pub Option<DeviceId>);

impl fmt::Display for DeviceWords {
    ghost output = { λ words. Some (device_text words.0) };

    fn fmt<W: fmt::Write>(&self, f: &mut fmt::Formatter<W>) -> fmt::Result {
        match self.0 {
            Some(device) => write!(f, "D{}", device.0),
            None => f.write_str("the originator"),
        }
    }
}

/// A use of a packet, as `IRP 0.1`: its slot and its use number.
#[derive(Clone, Copy)]
pub struct PacketWords(pub IrpRef);

impl fmt::Display for PacketWords {
    ghost output = { λ words. Some (packet_text words.0) };

    fn fmt<W: fmt::Write>(&self, f: &mut fmt::Formatter<W>) -> fmt::Result {
        if self.0.slot == UNBOUND {
            f.write_str("IRP of a label that isn't bound")
        } else {
            write!(f, "IRP {}.{}", self.0.slot, self.0.use_no)
        }
    }
}

/// Who makes a call: `originator` or a device, as `D1`.
#[derive(Clone, Copy)]
pub struct PartyWords(pub Party);

impl fmt::Display for PartyWords {
    ghost output = { λ words. Some (party_text words.0) };

    fn fmt<W: fmt::Write>(&self, f: &mut fmt::Formatter<W>) -> fmt::Result {
        match self.0 {
            Party::Originator => f.write_str("originator"),
            Party::Device(device) => write!(f, "D{}", device.0),
        }
    }
}

/// Who owns a packet.
#[derive(Clone, Copy)]
pub struct OwnerWords(pub Owner);

impl fmt::Display for OwnerWords {
    ghost output = { λ words. Some (owner_text words.0) };

    fn fmt<W: fmt::Write>(&self, f: &mut fmt::Formatter<W>) -> fmt::Result {
        match self.0 {
            Owner::Originator => f.write_str("the originator owns it"),
            Owner::Device(device) => write!(f, "D{} owns it", device.0),
            Owner::Ended => f.write_str("completed"),
        }
    }
}

/// The names of the rules of completion routines, as scripts and transcripts have them (this project's own).
static RULE_NAMES: [&'static str; 5] = ["watch", "change", "keeper", "keep_on_error", "free"];

/// The names of the rules of completion routines, as scripts and transcripts have them.
#[tactic(auto, unfolding(irp_forms::specs::Names::rules))]
pub fn rule_names() -> &'static [&'static str]
    ensures { map (λ name. name.now) result.now ≡ map rule_name rules }
{
    &RULE_NAMES
}

/// A completion routine, as `keeper 0`: its rule and its number within it.
#[derive(Clone, Copy)]
pub struct RoutineWords(pub RoutineId);

impl fmt::Display for RoutineWords {
    ghost output = { λ words. Some (routine_text words.0) };

    fn fmt<W: fmt::Write>(&self, f: &mut fmt::Formatter<W>) -> fmt::Result {
        write!(f, "{} {}", self.0.rule.name(), self.0.no)
    }
}
