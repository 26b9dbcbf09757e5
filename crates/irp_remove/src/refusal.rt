//! Why a call was refused. All of these are this project's own rule but `DeletePending`.

/// Why nothing was opened.
#[derive(Clone, Copy, PartialEq, Eq, Debug)]
pub enum OpenRefusal {
    /// None or more than 64 locks or seats were asked for.
    BadCount,
    /// There is no memory for them.
    Memory,
}

/// Why no reference was taken.
#[derive(Clone, Copy, PartialEq, Eq, Debug)]
pub enum AcquireRefusal {
    /// There is no such lock.
    NoLock,
    /// The seat holds 64 references.
    SeatFull,
    /// The removal of the lock has begun (WDK: STATUS_DELETE_PENDING, 0xC0000056).
    DeletePending,
}

/// Why no reference was given back.
#[derive(Clone, Copy, PartialEq, Eq, Debug)]
pub enum ReleaseRefusal {
    /// There is no such lock.
    NoLock,
    /// The seat holds no reference to the lock under the tag.
    NotHeld,
}

/// Why a removal was not begun.
#[derive(Clone, Copy, PartialEq, Eq, Debug)]
pub enum BeginRefusal {
    /// There is no such lock.
    NoLock,
    /// The seat holds no reference to the lock under the tag.
    NotHeld,
    /// The removal had begun before. The seat keeps its reference.
    AlreadyRemoving,
}

/// Why a lock was not found drained.
#[derive(Clone, Copy, PartialEq, Eq, Debug)]
pub enum DrainRefusal {
    /// There is no such lock.
    NoLock,
    /// A word other than 1: the removed bit, and twice the number of references and of attempts in flight. It is the
    /// word that the seat's view tells as found last. That it stood in the table is not proved.
    Busy(u64),
}

/// Why a reference was not handed over.
#[derive(Clone, Copy, PartialEq, Eq, Debug)]
pub enum HandRefusal {
    /// There is no such lock.
    NoLock,
    /// The giver holds no reference to the lock under the tag.
    NotHeld,
    /// The receiver holds 64 references.
    SeatFull,
}
