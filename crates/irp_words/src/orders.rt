//! What the words ask for.

/// What is done with a text (this project's own command line).
#[derive(Clone, Copy)]
pub enum Task {
    /// The JSON of a script in words.
    Json,
    /// The words of a script in JSON.
    Words,
    /// What is wrong with a script, in words or in JSON, and whether what is hardly meant counts as wrong.
    Faults { strict: bool },
}

/// What the program is asked to do.
#[derive(Clone, Copy)]
pub enum Order {
    /// Write the help.
    Help,
    /// Write the tables of names.
    Tables,
    /// Read a text and do this with it.
    Read(Task),
}

/// An order, and the file to read where it isn't standard input.
#[derive(Clone, Copy)]
pub struct Asked<'a> {
    pub order: Order,
    pub file: Option<&'a str>,
}
