//! Statuses.

ghost use Rattle.std.specs.Prelude.{◌≡◌, Some, map, true};
ghost use Rattle.std.specs.Option.{option_map};
ghost use Rattle.irp_names.specs.Small.{wide_hex};
ghost use Rattle.irp_names.specs.Statuses.{result_text, status_name, status_named, status_rows, status_text};

use crate::rows::{Row, name_among, number_among};
use crate::small::Hex;
use irp_types::Status;
use std::fmt;

/// The statuses that drivers give often, of the thousands that Windows has, in the order of their numbers (WDK:
/// "NTSTATUS Values").
static STATUSES: [Row; 35] = [
    (0x0000_0000, "STATUS_SUCCESS"),
    (0x0000_0102, "STATUS_TIMEOUT"),
    (0x0000_0103, "STATUS_PENDING"),
    (0x0000_0104, "STATUS_REPARSE"),
    (0x8000_0005, "STATUS_BUFFER_OVERFLOW"),
    (0x8000_0006, "STATUS_NO_MORE_FILES"),
    (0x8000_0011, "STATUS_DEVICE_BUSY"),
    (0x8000_001A, "STATUS_NO_MORE_ENTRIES"),
    (0xC000_0001, "STATUS_UNSUCCESSFUL"),
    (0xC000_0002, "STATUS_NOT_IMPLEMENTED"),
    (0xC000_0004, "STATUS_INFO_LENGTH_MISMATCH"),
    (0xC000_0005, "STATUS_ACCESS_VIOLATION"),
    (0xC000_0008, "STATUS_INVALID_HANDLE"),
    (0xC000_000D, "STATUS_INVALID_PARAMETER"),
    (0xC000_000E, "STATUS_NO_SUCH_DEVICE"),
    (0xC000_000F, "STATUS_NO_SUCH_FILE"),
    (0xC000_0010, "STATUS_INVALID_DEVICE_REQUEST"),
    (0xC000_0011, "STATUS_END_OF_FILE"),
    (0xC000_0016, "STATUS_MORE_PROCESSING_REQUIRED"),
    (0xC000_0017, "STATUS_NO_MEMORY"),
    (0xC000_0022, "STATUS_ACCESS_DENIED"),
    (0xC000_0023, "STATUS_BUFFER_TOO_SMALL"),
    (0xC000_0034, "STATUS_OBJECT_NAME_NOT_FOUND"),
    (0xC000_0035, "STATUS_OBJECT_NAME_COLLISION"),
    (0xC000_0043, "STATUS_SHARING_VIOLATION"),
    (0xC000_0056, "STATUS_DELETE_PENDING"),
    (0xC000_007F, "STATUS_DISK_FULL"),
    (0xC000_009A, "STATUS_INSUFFICIENT_RESOURCES"),
    (0xC000_009D, "STATUS_DEVICE_NOT_CONNECTED"),
    (0xC000_00A3, "STATUS_DEVICE_NOT_READY"),
    (0xC000_00B5, "STATUS_IO_TIMEOUT"),
    (0xC000_00BB, "STATUS_NOT_SUPPORTED"),
    (0xC000_0120, "STATUS_CANCELLED"),
    (0xC000_0184, "STATUS_INVALID_DEVICE_STATE"),
    (0xC000_0185, "STATUS_IO_DEVICE_ERROR"),
];

/// The number of each status that has a name here, with its name, in the order of the numbers. No other function names
/// the table, since a check reads it whole at each that does.
pub fn status_names() -> &'static [Row]
    ensures { map (λ row. (row.0, row.1.now)) result.now ≡ status_rows }
{
    &STATUSES
}

/// The name of a status, where it is one of those that drivers give often. None for any other.
pub fn status_name(status: Status) -> Option<&'static str>
    ensures { option_map (λ name. name.now) result ≡ status_name status.0 }
{
    name_among(status_names(), status.0)
}

/// The status that has this name. None where none has it here.
pub fn status_named(name: &str) -> Option<Status>
    ensures { option_map (λ status. status.0) result ≡ status_named name.now }
{
    Some(Status(number_among(status_names(), name)?))
}

/// A number, as `0xC0000999`.
#[derive(Clone, Copy)]
struct EightPlaces(u32);

impl fmt::Display for EightPlaces {
    ghost output = { λ words. Some (wide_hex 8 true words.0) };

    fn fmt<W: fmt::Write>(&self, f: &mut fmt::Formatter<W>) -> fmt::Result {
        write!(f, "0x{:08X}", self.0)
    }
}

/// A status by its name, such as STATUS_PENDING, or `status 0xC0000999` where it has none here.
#[derive(Clone, Copy)]
pub struct StatusWords(pub Status);

impl fmt::Display for StatusWords {
    ghost output = { λ words. Some (status_text words.0) };

    fn fmt<W: fmt::Write>(&self, f: &mut fmt::Formatter<W>) -> fmt::Result {
        match status_name(self.0) {
            Some(name) => f.write_str(name),
            None => write!(f, "status {}", EightPlaces(self.0.0)),
        }
    }
}

/// A status and information: what a packet has in its IoStatus.
#[derive(Clone, Copy)]
pub struct ResultWords(pub Status, pub u64);

impl fmt::Display for ResultWords {
    ghost output = { λ words. Some (result_text words.0 words.1) };

    fn fmt<W: fmt::Write>(&self, f: &mut fmt::Formatter<W>) -> fmt::Result {
        write!(f, "{}, information {}", StatusWords(self.0), Hex(self.1))
    }
}
