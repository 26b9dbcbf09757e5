//! Calls of the manager.

ghost use Rattle.std.specs.Prelude.{◌≡◌, Some};
ghost use Rattle.irp_names.specs.Calls.{arguments_text, call_name, call_text, further_text, knowledge, locations_text};
ghost use Rattle.irp_names.specs.Small.{cancel_text};

use crate::closures::SettingWords;
use crate::majors::MajorWords;
use crate::small::{Hex, PacketWords};
use crate::statuses::{ResultWords, StatusWords};
use irp_forms::kind_of;
use irp_types::{Call, CancelId};
use std::fmt;

/// The routine of Windows that a call stands for (docs/RULES.md, The eighteen calls). Look stands for none: it reads
/// the packet. SetNext stands for what a driver does with the location that IoGetNextIrpStackLocation gives.
#[tactic(auto, using(crate::proofs::CallNames::call_named))]
pub fn call_name(call: Call) -> &'static str
    ensures { result.now ≡ call_name call }
{
    kind_of(call).windows_name()
}

/// A call with its arguments, as a driver would write it, such as `IoCallDriver(D2, IRP 0.1)`. Of a Delete it tells
/// also whether the caller knew the device's remove lock drained.
#[derive(Clone, Copy)]
pub struct CallWords {
    pub call: Call,
    pub drained: bool,
}

impl fmt::Display for CallWords {
    ghost output = { λ words. Some (call_text words.call words.drained) };

    fn fmt<W: fmt::Write>(&self, f: &mut fmt::Formatter<W>) -> fmt::Result {
        write!(f, "{}{}", call_name(self.call), ArgumentWords(*self))
    }
}

/// Whether a lock is known drained.
fn knowledge(drained: bool) -> &'static str
    ensures { result.now ≡ knowledge drained }
{
    if drained {
        "known drained"
    } else {
        "not known drained"
    }
}

/// What stands behind the name of a call.
#[derive(Clone, Copy)]
struct ArgumentWords(CallWords);

impl fmt::Display for ArgumentWords {
    ghost output = { λ words. Some (arguments_text words.0.call words.0.drained) };

    fn fmt<W: fmt::Write>(&self, f: &mut fmt::Formatter<W>) -> fmt::Result {
        match self.0.call {
            Call::CreateDevice { driver, lock } => write!(
                f,
                "(driver {}, remove lock {})",
                driver.0, lock.0
            ),
            Call::Attach { device, to } => write!(f, "(D{}, the stack of D{})", device.0, to.0),
            Call::Detach { lower } => write!(f, "(what stands on D{})", lower.0),
            Call::Delete { device } => write!(
                f,
                "(D{}), its remove lock {}",
                device.0,
                knowledge(self.0.drained)
            ),
            Call::Allocate { size } => write!(f, "{}", LocationsWords(size)),
            Call::CallDriver { irp, target, .. } => {
                write!(f, "(D{}, {})", target.0, PacketWords(irp))
            }
            Call::Look { irp } => write!(f, " {}", PacketWords(irp)),
            Call::Free { irp }
            | Call::CopyToNext { irp, .. }
            | Call::Skip { irp, .. }
            | Call::MarkPending { irp, .. }
            | Call::Cancel { irp } => write!(f, "({})", PacketWords(irp)),
            other => write!(f, "{}", FurtherWords(other)),
        }
    }
}

/// The size of a packet.
#[derive(Clone, Copy)]
struct LocationsWords(u8);

impl fmt::Display for LocationsWords {
    ghost output = { λ words. Some (locations_text words.0) };

    fn fmt<W: fmt::Write>(&self, f: &mut fmt::Formatter<W>) -> fmt::Result {
        if self.0 == 1 {
            f.write_str("(1 location)")
        } else {
            write!(f, "({} locations)", self.0)
        }
    }
}

/// What stands behind the name of a call that says more of its packet.
#[derive(Clone, Copy)]
struct FurtherWords(Call);

impl fmt::Display for FurtherWords {
    ghost output = { λ words. Some (further_text words.0) };

    fn fmt<W: fmt::Write>(&self, f: &mut fmt::Formatter<W>) -> fmt::Result {
        match self.0 {
            Call::Reuse { irp, status } => {
                write!(f, "({}, {})", PacketWords(irp), StatusWords(status))
            }
            Call::SetNext {
                irp,
                major,
                word,
                ..
            } => write!(
                f,
                "({}): {}, word {}",
                PacketWords(irp),
                MajorWords(major),
                Hex(word)
            ),
            Call::SetRoutine { irp, setting, .. } => {
                write!(f, "({}, {})", PacketWords(irp), SettingWords(setting))
            }
            Call::Complete {
                irp,
                status,
                information,
                ..
            } => write!(
                f,
                "({}) with {}",
                PacketWords(irp),
                ResultWords(status, information)
            ),
            Call::FinishTaken {
                irp,
                token,
                status,
                information,
            } => write!(
                f,
                "({}) by the token of use {} with {}",
                PacketWords(irp),
                token,
                ResultWords(status, information)
            ),
            Call::SetCancelRoutine { irp, cancel, .. } => {
                write!(f, "({}, {})", PacketWords(irp), CancelWords(cancel))
            }
            _ => f.write_str(""),
        }
    }
}

/// A cancel routine, as `cancel routine 0`, or `NULL`.
#[derive(Clone, Copy)]
pub struct CancelWords(pub Option<CancelId>);

impl fmt::Display for CancelWords {
    ghost output = { λ words. Some (cancel_text words.0) };

    fn fmt<W: fmt::Write>(&self, f: &mut fmt::Formatter<W>) -> fmt::Result {
        match self.0 {
            Some(id) => write!(f, "cancel routine {}", id.0),
            None => f.write_str("NULL"),
        }
    }
}
