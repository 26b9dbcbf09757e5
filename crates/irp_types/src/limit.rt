//! How many locations a packet may have, and how many devices a stack.

ghost use Rattle.std.specs.Prelude.{◌≡◌, ◌≤◌};
ghost use Rattle.irp_types.specs.Limits.{most_locations, most_under};

/// The limit on the locations of a packet and on the devices of a stack. It is fixed when a manager is made (this
/// project's own rule).
#[derive(Clone, Copy, PartialEq, Eq, Debug)]
pub enum Limit {
    Sixteen,
    ThirtyTwo,
}

impl Limit {
    /// The limit as a number: 16 or 32.
    pub fn locations(self) -> u32
        ensures limit { result ≡ most_under self }
        ensures few { result ≤ most_locations }
    {
        match self {
            Limit::Sixteen => 16,
            Limit::ThirtyTwo => 32,
        }
    }
}
