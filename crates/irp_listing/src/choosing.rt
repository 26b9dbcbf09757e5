//! Which entries are shown.

ghost use Rattle.std.specs.Prelude.{◌≡◌, ◌↔◌, IsTrue};
ghost use Rattle.irp_listing.specs.Choosing.{NamesUse, IsChosen, packet_in};

use irp_types::{Entry, IrpRef, Reply};

/// Which entries are shown, and how.
#[derive(Clone, Copy)]
pub struct Choice {
    /// Only those that name this use of a packet, where there is one.
    pub only: Option<IrpRef>,
    /// Whether the seat of each call is told.
    pub tells_seats: bool,
}

/// The packet that a reply gives.
fn packet_in(reply: Reply) -> Option<IrpRef>
    ensures { result ≡ packet_in reply }
{
    match reply {
        Reply::Irp(irp) => Some(irp),
        _ => None,
    }
}

/// Whether a packet's reference is this one.
fn is_use(given: Option<IrpRef>, irp: IrpRef) -> bool
    ensures { IsTrue result ↔ (given ≡ Some irp) }
{
    given == Some(irp)
}

/// Whether an entry names this use of a packet: its call does, or its reply gives it (this project's own rule).
fn names_use(entry: &Entry, irp: IrpRef) -> bool
    ensures { IsTrue result ↔ NamesUse irp entry.now }
{
    is_use(entry.call.packet(), irp) || is_use(packet_in(entry.reply), irp)
}

/// Whether an entry is shown.
pub fn is_chosen(choice: Choice, entry: &Entry) -> bool
    ensures { IsTrue result ↔ IsChosen choice.only entry.now }
{
    match choice.only {
        Some(irp) => names_use(entry, irp),
        None => true,
    }
}
