//! How many there may be (this project's own rule, but for the last major function code: WDK, "IRP Major Function
//! Codes").

/// The greatest major function code, that of Plug and Play.
pub const LAST_MAJOR: u8 = 0x1b;

/// How many completion routines of one rule a store may have, and how many cancel routines.
pub const MOST_ROUTINES: u32 = 256;

/// How many dispatches a store may have.
pub const MOST_DISPATCHES: usize = 256;

/// How many drivers a store may have.
pub const MOST_DRIVERS: usize = 64;

/// How many remove locks there may be.
pub const MOST_LOCKS: u32 = 64;

/// How many seats a session may have.
pub const MOST_SEATS: u32 = 64;

/// How many cancel slots there may be.
pub const MOST_SLOTS: u32 = 64;

/// How many entries a history may have.
pub const MOST_ENTRIES: usize = 1_000_000;
