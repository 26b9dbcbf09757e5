//! What words ask for.

/// What the program is asked to do (this project's own command line, README.md).
#[derive(Clone, Copy)]
pub enum Order {
    /// Run the built-in scenario and write its transcript.
    Demo,
    /// Read a script, have so many workers run it, 1 to 64, and write the transcript.
    Run { workers: u32 },
    /// Read a transcript and tell whether its history is legal.
    Check,
}
