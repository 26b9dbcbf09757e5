//! The forms that parts of scripts and of transcripts' lines may have.

pub use crate::parts::Part;
use irp_forms::ActKind;

/// What a part may be.
#[derive(Clone, Copy)]
pub enum Shape {
    /// Whatever it is.
    Any,
    /// A number below 2^32.
    Short,
    /// A number below 2^64.
    Long,
    /// The same, with words of its own.
    UseNumber,
    /// A number within these bounds.
    Within(u64, u64),
    /// One of these numbers.
    OneOf(&'static [u64]),
    /// A number below the header's seats; in a script any below 2^32.
    Seat,
    /// True or false.
    Truth,
    /// One of these texts.
    Text(&'static [&'static str]),
    /// The rule of a completion routine.
    Rule,
    /// Letters of a setting.
    Flags,
    /// One of these texts, or a number below 2^32.
    TextOrShort(&'static [&'static str]),
    /// A refusal's name.
    Refusal,
    /// A label.
    Label,
    /// A label, or a slot and a use number.
    LabelOrPair,
    /// Null, or what this part may be.
    OrNull(Part),
    /// A list of exactly these parts.
    Items(&'static [Part]),
    /// A list of such parts, at most so many.
    Each(Part, usize),
    /// An object with exactly these keys.
    Keys(&'static [Key]),
    /// An object that has under `do` the word of a step.
    Act,
    /// One of the kinds that the part has. An object of these is told so.
    Kinds(&'static str),
}

/// A key of an object, and what stands under it.
pub type Key = (&'static str, Part);

/// An act, and its keys in a part of such a kind. It has none where it can't be such a part.
#[derive(Clone, Copy)]
pub struct ActForm {
    pub act: ActKind,
    pub keys: &'static [Key],
}

/// How a value of one kind is made.
#[derive(Clone, Copy)]
pub enum Body {
    /// A text, its name.
    Text,
    /// An object with exactly these keys, of which one is its name.
    Keys(&'static [Key]),
    /// A list: its name, and then these parts. In a transcript it is told by the first words, in a script by the others.
    Items(&'static [Part], &'static str, &'static str),
}

/// One kind of those that a part may have.
#[derive(Clone, Copy)]
pub struct Kind {
    pub of: Part,
    pub name: &'static str,
    /// Whether form 1 lacks it.
    pub two: bool,
    pub body: Body,
}
