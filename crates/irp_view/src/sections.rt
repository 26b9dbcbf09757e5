//! The sections of docs/RULES.md.

ghost use Rattle.std.specs.Prelude.{◌≡◌};
ghost use Rattle.irp_view.specs.Sections.{title_of};

/// A section of docs/RULES.md that a rule stands in.
#[derive(Clone, Copy)]
pub enum Section {
    SendingDown,
    Unwinding,
    Cancelling,
    Closures,
    Shown,
    Calls,
    Histories,
}

impl Section {
    /// The heading, as docs/RULES.md has it.
    pub fn title(self) -> &'static str
        ensures { result.now ≡ title_of self }
    {
        match self {
            Section::SendingDown => "Sending a packet down",
            Section::Unwinding => "Unwinding",
            Section::Cancelling => "Cancelling",
            Section::Closures => "Rules of closures",
            Section::Shown => "What each closure is shown",
            Section::Calls => "The eighteen calls",
            Section::Histories => "Histories",
        }
    }
}
