//! The numbers by which packets, devices, locks, drivers and closures are named.

/// One use of a packet: its slot, and the number that the use was given when the packet was allocated or reused.
/// A slot may come again once its packet was freed; a use number never does.
#[derive(Clone, Copy, PartialEq, Eq, Debug)]
pub struct IrpRef {
    pub slot: usize,
    pub use_no: u64,
}

/// A device. Numbers rise from 0 and never come again.
#[derive(Clone, Copy, PartialEq, Eq, Debug)]
pub struct DeviceId(pub u32);

/// A remove lock, numbered from 0. Several devices may name one.
#[derive(Clone, Copy, PartialEq, Eq, Debug)]
pub struct LockNo(pub u32);

/// A driver, numbered from 0: a table from major function codes to dispatches.
#[derive(Clone, Copy, PartialEq, Eq, Debug)]
pub struct DriverId(pub u32);

/// A dispatch routine, numbered from 0.
#[derive(Clone, Copy, PartialEq, Eq, Debug)]
pub struct DispatchId(pub u32);

/// A cancel routine, numbered from 0.
#[derive(Clone, Copy, PartialEq, Eq, Debug)]
pub struct CancelId(pub u32);
