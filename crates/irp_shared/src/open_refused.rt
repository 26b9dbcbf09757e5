//! Why nothing was opened. Source: this project's own rules.

/// Why no session was opened.
#[derive(Clone, Copy, PartialEq, Eq, Debug)]
pub enum OpenRefused {
    /// None or more than 64 locks or seats were asked for.
    BadCount,
    /// A growth was refused.
    Memory,
}
