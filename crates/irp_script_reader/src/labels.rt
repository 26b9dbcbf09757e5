//! The labels of a script, and the packets that steps name.

ghost use Rattle.std.specs.Prelude.{◌≡◌, [], codes, length, map, option_map, string_bytes};
ghost use Rattle.std.specs.List.{list_all};
ghost use Rattle.serde_json.specs.View.{view};
ghost use Rattle.irp_forms.specs.Fields.{field};
ghost use Rattle.irp_script_reader.specs.Labels as spec;
ghost use Rattle.irp_script_reader.specs.Taking.{Gives};

use crate::act::Named;
use crate::refusal::MemberFault;
use crate::taking::Stop;
use irp_forms::FromValue;
use serde_json::Value;
use std::alloc::Global;
use std::marker::Model;

/// The most labels of a script.
const MOST_LABELS: usize = 4096;

/// The texts of the labels that a script names, or has named so far, in the order in which it first names them. A label's
/// place here is its number in the script's steps. Contracts see their bytes.
#[derive(Drop)]
pub struct Labels {
    texts: Vec<String>,
}

impl Model for Labels {
    ghost use Rattle.std.specs.Prelude.{ℕ, List, map, string_bytes};

    ghost Value = { List (List ℕ) };

    ghost view = { λ labels. map string_bytes labels.texts.items };
}

impl Labels {
    /// No labels.
    pub fn new(alloc: Global) -> Labels
        ensures { result ≡ [] }
    {
        Labels {
            texts: Vec::new(alloc),
        }
    }

    /// These labels.
    pub fn from_texts(texts: Vec<String>) -> Labels
        ensures { result ≡ map string_bytes texts.items }
    {
        Labels { texts }
    }

    /// Their texts, by number.
    pub fn as_slice(&self) -> &[String]
        ensures { map string_bytes result.now ≡ self.now }
    {
        &self.texts
    }

    /// How many there are.
    pub fn len(&self) -> usize
        ensures { result ≡ length self.now }
    {
        self.texts.len()
    }

    /// The label's place, or how many there are where it is none of them.
    pub fn place_of(&self, label: &str) -> usize
        ensures { result ≡ spec.place_of label.now self.now }
    {
        for (place, text) in self.texts.iter().enumerate() {
            if text.as_str() == label {
                return place;
            }
        }
        self.texts.len()
    }

    /// The place of the label that a step names, or 0 where it names none.
    pub fn place_in(&self, value: &Value) -> usize
        ensures { result ≡ spec.place_among self.now (spec.label_at (view value.now)) }
    {
        match label_at(value) {
            Some(label) => self.place_of(label),
            None => 0,
        }
    }

    /// These and the label that a step names, where it names one that is none of them. The 4,097th is `TooMany`.
    #[tactic(auto, unfolding(crate::specs::Labels::with_label))]
    pub fn with_label_in(self, alloc: Global, value: &Value) -> Result<Labels, Stop>
        ensures { Gives result (spec.with_labels self (spec.label_at (view value.now))) }
    {
        let Some(label) = label_at(value) else {
            return Ok(self);
        };
        if self.place_of(label) < self.len() {
            return Ok(self);
        }
        if self.len() >= MOST_LABELS {
            return Err(Stop::MemberFault(MemberFault::TooMany));
        }
        let Ok(text) = String::from_str(alloc, label) else {
            return Err(Stop::NoMemory);
        };
        let mut texts = self.texts;
        if texts.push(text).is_err() {
            return Err(Stop::NoMemory);
        }
        Ok(Labels { texts })
    }
}

/// The text under `as`, or else under `irp`.
#[tactic(auto, unfolding(crate::specs::Labels::label_at))]
fn label_at(value: &Value) -> Option<&str>
    ensures { option_map (λ text. text.now) result ≡ spec.label_at (view value.now) }
{
    match value.get("as") {
        Some(given) => given.as_str(),
        None => value.get("irp")?.as_str(),
    }
}

/// Whether each byte is an ASCII letter, a digit or an underscore.
fn are_label_bytes(bytes: &[u8]) -> bool
    ensures { result ≡ list_all spec.is_label_byte bytes.now }
{
    bytes
        .iter()
        .all(|byte| byte.is_ascii_alphanumeric() || *byte == b'_')
}

/// Whether a text is a label: 1 to 32 ASCII letters, digits or underscores.
#[tactic(auto, unfolding(crate::specs::Labels::is_label))]
pub fn is_label(text: &str) -> bool
    ensures { result ≡ spec.is_label text.now }
{
    let bytes = text.as_bytes();
    bytes.len() >= 1 && bytes.len() <= 32 && are_label_bytes(bytes)
}

/// A packet by a label, which has this place, or by a reference.
#[tactic(auto, unfolding(crate::specs::Labels::named_at))]
fn named_at(place: usize, value: &Value) -> Option<Named>
    ensures { result ≡ spec.named_at place (view value.now) }
{
    match value {
        Value::String(text) => is_label(text.as_str()).then_some(Named::Label(place)),
        _ => Some(Named::Irp(FromValue::from_value(value)?)),
    }
}

/// The packet of a step, by a label, which has this place, or by a reference.
pub fn packet_in(place: usize, value: &Value) -> Option<Named>
    ensures { result ≡ field (codes "irp") (spec.named_at place) (view value.now) }
{
    named_at(place, value.get("irp")?)
}
