//! What the words ask for.

/// What is told of a script's orders (this project's own command line).
#[derive(Clone, Copy)]
pub enum Task<'a> {
    /// The table of the outcomes.
    Table,
    /// A transcript that leads to the outcome of this number, from 1.
    Show(u64),
    /// Whether this condition holds of no outcome.
    Never(&'a str),
    /// Whether every outcome is right: no step is refused, and nothing is left behind.
    Right,
}

/// How orders are explored, and what is told of them.
#[derive(Clone, Copy)]
pub struct Order<'a> {
    pub task: Task<'a>,
    /// Whether outcomes are joined by the end alone, without replies.
    pub by_ends: bool,
    /// Whether outcomes are joined that differ in the numbers of uses and slots of packets alone.
    pub in_groups: bool,
    /// How many states orders of equally many steps may lead to.
    pub states: usize,
    /// How many outcomes there may be.
    pub outcomes: usize,
}

/// What the program is asked to do, with a file or with standard input.
#[derive(Clone, Copy)]
pub enum Asked<'a> {
    /// Write the help.
    Help,
    /// Explore the orders of the script in this file, or in standard input where there is none.
    Explore {
        order: Order<'a>,
        file: Option<&'a str>,
    },
}
