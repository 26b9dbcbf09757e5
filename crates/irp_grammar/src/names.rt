//! The names that a text gives, each for a number from its line on.

ghost use Rattle.std.specs.List.{list_all};
ghost use Rattle.std.specs.Prelude.{[], ◌∷◌, ◌++◌, ◌≡◌, Decides, IfOk, IfSome, OnOk, option_map};
ghost use Rattle.irp_grammar.specs.Naming as naming;
ghost use Rattle.irp_grammar.specs.Naming.{IsFound, IsKnown, IsNameOf, IsNamed, IsNumber, IsPlace, IsPlaced, IsRoutineNamed, label_texts, naming_of, namings};
ghost use Rattle.irp_grammar.specs.Numbers as spec;
ghost use Rattle.irp_script_reader.specs.Labels.{is_label, is_label_byte};
ghost use Rattle.irp_forms.specs.declared.key_parts.Part.TheVariants as part;

use crate::numbers::{begins_with_digit, number_in};
use irp_forms::Part;
use irp_names::{major_named, minor_named, status_named};
use irp_types::{RoutineId, Rule};
use std::alloc::{AllocError, Global};

/// A name and what it stands for. Each part has names of its own.
#[derive(Clone, Copy)]
pub struct Name<'a> {
    pub part: Part,
    pub text: &'a str,
    /// The number, of a completion routine that within its rule.
    pub number: u32,
    /// The rule of a completion routine; of no meaning for other parts.
    pub rule: Rule,
}

/// The names and the labels that a text has given so far.
#[derive(Drop)]
pub struct Names<'a> {
    names: Vec<Name<'a>>,
    labels: Vec<&'a str>,
}

/// Whether each byte is an ASCII letter, a digit or an underscore.
fn are_label_bytes(bytes: &[u8]) -> bool
    ensures { result ≡ list_all is_label_byte bytes.now }
{
    bytes
        .iter()
        .all(|byte| byte.is_ascii_alphanumeric() || *byte == b'_')
}

/// Whether each byte is an ASCII letter, a digit or an underscore, and there are 1 to 32 of them.
#[tactic(auto, unfolding(irp_script_reader::specs::Labels::is_label))]
pub fn is_label(text: &str) -> bool
    ensures { result ≡ is_label text.now }
{
    let bytes = text.as_bytes();
    bytes.len() >= 1 && bytes.len() <= 32 && are_label_bytes(bytes)
}

/// The device that a word such as D2 names.
fn device_in(text: &str) -> Option<u64>
    ensures { IfSome result (IsKnown part.Device text.now) }
{
    number_up_to(Part::Device.most(), text.strip_prefix('D')?)
}

/// The number that a word is, where it isn't above this.
pub fn number_up_to(most: u64, text: &str) -> Option<u64>
    ensures { IfSome result (λ number. number ≡ spec.number_in text.now) }
{
    match number_in(text) {
        Some(number) if number <= most => Some(number),
        _ => None,
    }
}

/// The number of such a part that has this name in Windows, and a device's by a word such as D2.
fn number_named(part: Part, text: &str) -> Option<u64>
    ensures { IfSome result (IsKnown part text.now) }
{
    match part {
        Part::Device => device_in(text),
        Part::Status => Some(u64::from(status_named(text)?.0)),
        Part::Major => Some(u64::from(major_named(text)?)),
        Part::Word => minor_named(text),
        _ => None,
    }
}

/// The part whose names a part has.
pub fn named_as(part: Part) -> Part
    ensures { result ≡ naming.named_as part }
{
    match part {
        Part::Party => Part::Device,
        Part::CancelOrNull | Part::CancelOrEnd => Part::Cancel,
        other => other,
    }
}

/// Whether a word may be given as a name: a label that doesn't begin with a digit and means nothing else where names
/// stand.
pub fn is_name(text: &str) -> bool {
    is_label(text)
        && !begins_with_digit(text)
        && device_in(text).is_none()
        && !matches!(
            text,
            "o" | "originator"
                | "none"
                | "as"
                | "lock"
                | "watch"
                | "change"
                | "keeper"
                | "keep_on_error"
                | "free"
        )
}

impl<'a> Name<'a> {
    /// Whether this is the name of such a part that a word is.
    fn is_of(self, part: Part, text: &str) -> bool
        ensures { Decides result (IsNameOf part text.now (naming_of self.entry)) }
    {
        self.part == part && self.text == text
    }
}

impl<'a> Names<'a> {
    /// No names.
    pub fn new(alloc: Global) -> Names<'a>
        ensures names { namings result ≡ [] }
        ensures labels { label_texts result ≡ [] }
    {
        Names {
            names: Vec::new(alloc),
            labels: Vec::new(alloc),
        }
    }

    /// The names.
    pub fn names(&self) -> &[Name<'a>] {
        self.names.as_slice()
    }

    /// The labels, in the order in which the text first has them.
    pub fn labels(&self) -> &[&'a str]
        ensures { result.now ≡ self.now.labels.items }
    {
        self.labels.as_slice()
    }

    /// What the word names of such a part.
    fn find(&self, part: Part, text: &str) -> Option<Name<'a>>
        ensures { IsFound (namings self.now) part text.now (option_map naming_of result) }
    {
        for name in self.names.iter() {
            if name.is_of(part, text) {
                return Some(*name);
            }
        }
        None
    }

    /// Whether the word is a name of such a part.
    pub fn has(&self, part: Part, text: &str) -> bool {
        self.find(part, text).is_some()
    }

    /// The number of such a part that a word names.
    fn meant(&self, part: Part, text: &str) -> Option<u64>
        ensures { IfSome result (IsNamed (namings self.now) part text.now) }
    {
        match self.find(part, text) {
            Some(name) => Some(u64::from(name.number)),
            None => number_named(part, text),
        }
    }

    /// The number of such a part that a word is, by its digits or by a name; of a device also as D2.
    pub fn number(&self, part: Part, text: &str) -> Option<u64>
        ensures { IfSome result (IsNumber (namings self.now) part text.now) }
    {
        if begins_with_digit(text) {
            number_up_to(part.most(), text)
        } else {
            self.meant(named_as(part), text)
        }
    }

    /// The same for a part whose numbers are below 2^32.
    pub fn short(&self, part: Part, text: &str) -> Option<u32>
        ensures { IfSome result (IsNumber (namings self.now) part text.now) }
    {
        match u32::try_from(self.number(part, text)?) {
            Ok(number) => Some(number),
            Err(_) => None,
        }
    }

    /// The completion routine that has this name.
    pub fn routine(&self, text: &str) -> Option<RoutineId>
        ensures { IsRoutineNamed (namings self.now) text.now result }
    {
        let name = self.find(Part::Routine, text)?;
        Some(RoutineId {
            rule: name.rule,
            no: name.number,
        })
    }

    /// Gives a name.
    pub fn give(&mut self, name: Name<'a>) -> Result<(), AllocError>
        ensures names { OnOk result (namings self.new ≡ namings self.old ++ naming_of name.entry ∷ []) }
        ensures labels { label_texts self.new ≡ label_texts self.old }
    {
        Ok(self.names.push(name)?)
    }

    /// The place of a label among those that were named so far.
    fn place_of(&self, text: &str) -> Option<usize>
        ensures { IsPlace (label_texts self.now) text.now result }
    {
        for place in 0..self.labels.len() {
            if self.labels[place] == text {
                return Some(place);
            }
        }
        None
    }

    /// The place of a label, which is added where it is new.
    pub fn label(&mut self, text: &'a str) -> Result<usize, AllocError>
        ensures names { namings self.new ≡ namings self.old }
        ensures labels { IfOk result (λ place.
            IsPlaced (label_texts self.old) text.now place (label_texts self.new)) }
    {
        if let Some(place) = self.place_of(text) {
            return Ok(place);
        }
        let place = self.labels.len();
        self.labels.push(text)?;
        Ok(place)
    }
}
