//! What stands under the keys of acts, in scripts, entries and word lines, and in plans. Source: this project's own
//! format (docs/FORMATS.md).

ghost use Rattle.std.specs.Prelude.{◌≡◌};
ghost use Rattle.irp_forms.specs.KeyParts.{most};

/// What stands under a key of an act, or in a plan; and what else a script in words names.
#[derive(Clone, Copy, PartialEq, Eq)]
pub enum Part {
    Device,
    Driver,
    Dispatch,
    Routine,
    Cancel,
    Lock,
    Slot,
    Seat,
    Step,
    Tag,
    Status,
    Size,
    Major,
    /// What a location's parameters are, or a minor function code.
    Word,
    Information,
    /// What an entry names a packet by that was taken from a cancel slot.
    Token,
    Party,
    Label,
    /// A packet, by a label or by its slot and its use number.
    Packet,
    Setting,
    /// A cancel routine or null, for which words have `none`.
    CancelOrNull,
    /// A cancel routine or null, which words leave out.
    CancelOrEnd,
    /// A setting or null, which words leave out.
    SettingOrEnd,
}

impl Part {
    /// The greatest number that it may be, where it may be one.
    pub fn most(self) -> u64
        ensures { result ≡ most self }
    {
        match self {
            Part::Size | Part::Major => 0xff,
            Part::Word | Part::Information | Part::Token => 0xffff_ffff_ffff_ffff,
            _ => 0xffff_ffff,
        }
    }
}
