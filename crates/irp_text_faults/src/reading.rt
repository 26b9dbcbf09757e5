//! Where a part of a script stands.

/// What is sought: a value under a key of a script, which is 1 deep, or a member of a list there, 2 deep.
#[derive(Clone, Copy)]
pub struct Sought {
    pub depth: usize,
    pub index: usize,
}

/// How far a text is read.
#[derive(Clone, Copy)]
pub struct Reading {
    /// How many bytes are read.
    pub at: usize,
    /// How many lists and objects are open.
    pub depth: usize,
    /// Whether the next byte stands in a text.
    pub quoted: bool,
    /// Whether it stands behind a backslash there.
    pub escaped: bool,
    /// Where the last text begins.
    pub word: usize,
    /// Whether the last text directly in the script is the key.
    pub named: bool,
    /// Whether the next byte stands in what is under the key.
    pub valued: bool,
    /// How many members of the list stand before it.
    pub members: usize,
    /// Where what is sought begins.
    pub start: usize,
    /// Where it ends, as far as it is read; 0 where it hasn't begun.
    pub end: usize,
}
