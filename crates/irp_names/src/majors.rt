//! Major function codes.

ghost use Rattle.std.specs.Prelude.{◌≡◌, ◌+◌, ◌≤◌, ◌↔◌, IfNone, IfSome, Some, false, true, is_some};
ghost use Rattle.std.specs.Option.{option_map};
ghost use Rattle.irp_names.specs.Majors.{NoneIsNamed, major_rows, major_text};
ghost use Rattle.irp_names.specs.Rows.{named};
ghost use Rattle.irp_names.specs.Small.{wide_hex};
ghost use Rattle.irp_types.specs.Limits.{last_major};

use irp_types::limits::LAST_MAJOR;
use std::fmt;

/// The name of a major function code, 0x00 to 0x1b. None for any other (WDK: "IRP Major Function Codes").
pub fn major_name(major: u8) -> Option<&'static str>
    ensures some { (is_some result ≡ true) ↔ (major ≤ last_major) }
    ensures name { option_map (λ name. name.now) result ≡ named major_rows major }
{
    Some(match major {
        0x00 => "IRP_MJ_CREATE",
        0x01 => "IRP_MJ_CREATE_NAMED_PIPE",
        0x02 => "IRP_MJ_CLOSE",
        0x03 => "IRP_MJ_READ",
        0x04 => "IRP_MJ_WRITE",
        0x05 => "IRP_MJ_QUERY_INFORMATION",
        0x06 => "IRP_MJ_SET_INFORMATION",
        0x07 => "IRP_MJ_QUERY_EA",
        0x08 => "IRP_MJ_SET_EA",
        0x09 => "IRP_MJ_FLUSH_BUFFERS",
        0x0a => "IRP_MJ_QUERY_VOLUME_INFORMATION",
        0x0b => "IRP_MJ_SET_VOLUME_INFORMATION",
        0x0c => "IRP_MJ_DIRECTORY_CONTROL",
        0x0d => "IRP_MJ_FILE_SYSTEM_CONTROL",
        0x0e => "IRP_MJ_DEVICE_CONTROL",
        0x0f => "IRP_MJ_INTERNAL_DEVICE_CONTROL",
        0x10 => "IRP_MJ_SHUTDOWN",
        0x11 => "IRP_MJ_LOCK_CONTROL",
        0x12 => "IRP_MJ_CLEANUP",
        0x13 => "IRP_MJ_CREATE_MAILSLOT",
        0x14 => "IRP_MJ_QUERY_SECURITY",
        0x15 => "IRP_MJ_SET_SECURITY",
        0x16 => "IRP_MJ_POWER",
        0x17 => "IRP_MJ_SYSTEM_CONTROL",
        0x18 => "IRP_MJ_DEVICE_CHANGE",
        0x19 => "IRP_MJ_QUERY_QUOTA",
        0x1a => "IRP_MJ_SET_QUOTA",
        0x1b => "IRP_MJ_PNP",
        _ => return None,
    })
}

/// The major function code that has this name. None where none has it.
pub fn major_named(name: &str) -> Option<u8>
    ensures some { IfSome result (λ major. named major_rows major ≡ Some name.now) }
    ensures none { IfNone result (NoneIsNamed name.now (last_major + 1)) }
{
    for major in 0..LAST_MAJOR + 1 {
        match major_name(major) {
            Some(other) if other == name => return Some(major),
            _ => {}
        }
    }
    None
}

/// A number, as `0x1c`.
#[derive(Clone, Copy)]
struct TwoPlaces(u8);

impl fmt::Display for TwoPlaces {
    ghost output = { λ words. Some (wide_hex 2 false words.0) };

    fn fmt<W: fmt::Write>(&self, f: &mut fmt::Formatter<W>) -> fmt::Result {
        write!(f, "0x{:02x}", self.0)
    }
}

/// A major function code by its name, such as IRP_MJ_READ, or `major 0x1c` where it has none.
#[derive(Clone, Copy)]
pub struct MajorWords(pub u8);

impl fmt::Display for MajorWords {
    ghost output = { λ words. Some (major_text words.0) };

    fn fmt<W: fmt::Write>(&self, f: &mut fmt::Formatter<W>) -> fmt::Result {
        match major_name(self.0) {
            Some(name) => f.write_str(name),
            None => write!(f, "major {}", TwoPlaces(self.0)),
        }
    }
}
