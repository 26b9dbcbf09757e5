//! What the words ask for.

use irp_types::IrpRef;

/// The entries from one place up to another, which isn't among them; places are counted from 0.
#[derive(Clone, Copy)]
pub struct Span {
    pub from: usize,
    pub to: usize,
}

/// What is told of a transcript (this project's own command line).
#[derive(Clone, Copy)]
pub enum Task {
    /// What is wrong with it.
    Why,
    /// Its entries as text: of one use of a packet or of all, and of a span or of the whole history.
    List {
        only: Option<IrpRef>,
        span: Option<Span>,
    },
    /// Its story, from which another program draws.
    Story,
}

/// What the program is asked to do.
#[derive(Clone, Copy)]
pub enum Order {
    /// Write the help.
    Help,
    /// Read a transcript and tell this of it.
    Read(Task),
}

/// An order, and the file to read where it isn't standard input.
#[derive(Clone, Copy)]
pub struct Asked<'a> {
    pub order: Order,
    pub file: Option<&'a str>,
}
