//! NT statuses.

ghost use Rattle.std.specs.Prelude.{◌≡◌};
ghost use Rattle.irp_types.specs.Status.{is_success, is_completable};

/// An NTSTATUS, any number of 32 bits (WDK: "Using NTSTATUS Values").
#[derive(Clone, Copy, PartialEq, Eq, Debug)]
pub struct Status(pub u32);

impl Status {
    /// STATUS_SUCCESS.
    pub const SUCCESS: Status = Status(0x0000_0000);
    /// STATUS_PENDING.
    pub const PENDING: Status = Status(0x0000_0103);
    /// STATUS_UNSUCCESSFUL.
    pub const UNSUCCESSFUL: Status = Status(0xC000_0001);
    /// STATUS_INVALID_DEVICE_REQUEST.
    pub const INVALID_DEVICE_REQUEST: Status = Status(0xC000_0010);
    /// STATUS_MORE_PROCESSING_REQUIRED.
    pub const MORE_PROCESSING_REQUIRED: Status = Status(0xC000_0016);
    /// STATUS_DELETE_PENDING.
    pub const DELETE_PENDING: Status = Status(0xC000_0056);
    /// STATUS_CANCELLED.
    pub const CANCELLED: Status = Status(0xC000_0120);

    /// Whether NT_SUCCESS holds: success and informational statuses, all below 0x80000000
    /// (WDK: "Using NTSTATUS Values").
    pub fn is_success(self) -> bool
        ensures { result ≡ is_success self }
    {
        self.0 < 0x8000_0000
    }

    /// Whether a packet may be completed with this status. PENDING may not (WDK: "IoCompleteRequest"), nor
    /// MORE_PROCESSING_REQUIRED (this project's own rule).
    pub fn is_completable(self) -> bool
        ensures { result ≡ is_completable self }
    {
        self.0 != 0x0000_0103 && self.0 != 0xC000_0016
    }
}
