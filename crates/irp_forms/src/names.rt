//! Values that a text names: rules, flags and refusals. Source: this project's own format (docs/FORMATS.md).
#![tactic(auto, unfolding(json::specs::Print::escape_byte))]

ghost use Rattle.std.specs.Prelude.{◌≡◌, ℕ, List, ◌++◌, Some, codes};
ghost use mathlib.Core.Logic.{◌↔◌};
ghost use Rattle.json.specs.Print.{quoted};
ghost use Rattle.serde_json.specs.View.{view};
ghost use Rattle.irp_forms.specs.Names as spec;
ghost use Rattle.irp_forms.specs.Found.{cancel_rule_found, refusal_found, rule_found};

use crate::from_value::FromValue;
use irp_types::{CancelRule, Refusal, Rule, every_refusal, refusal_name};
use serde_json::Value;

/// A value that a text names.
pub trait HasName: Copy + 'static {
    /// Its name.
    ghost name: { Self → List ℕ };

    /// Every value, in the order in which a reader compares their names. That each is there, `found` says; that none is
    /// there twice, no clause says.
    ghost all: { List Self };

    /// Every value, in that order.
    fn all() -> &'static [Self]
        ensures { result.now ≡ all };

    /// Its name. JSON writes it as it stands, between quotation marks.
    fn name(self) -> &'static str
        ensures name { result.now ≡ name self }
        ensures as_it_stands { quoted result.now ≡ codes "\"" ++ (result.now ++ codes "\"") };

    /// Each value is the first in `all` that has its name. So each value is there, and no two have the same name.
    ghost found: { (one : Self) → spec.first_named name all (name one) ≡ Some one };
}

/// The value that has this name; none where no value has it.
pub fn named<T: HasName>(given: &str) -> Option<T>
    ensures first { result ≡ spec.first_named T.name T.all given.now }
    ensures found { (one : T) → (result ≡ Some one) ↔ (given.now ≡ T.name one) }
{
    for one in T::all() {
        if given == one.name() {
            return Some(*one);
        }
    }
    None
}

/// The value whose name the text is; none for another text, and for what is no text.
impl<T: HasName> FromValue for T {
    ghost form = { spec.value_at T.name T.all };

    fn from_value(value: &Value) -> Option<Self> {
        named(value.as_str()?)
    }
}

impl HasName for Rule {
    ghost name = { spec.rule_name };

    ghost all = { spec.rules };

    ghost found = { rule_found };

    #[tactic(auto, unfolding(crate::specs::Names::rules))]
    fn all() -> &'static [Self] {
        &[
            Rule::Watch,
            Rule::Change,
            Rule::Keeper,
            Rule::KeepOnError,
            Rule::Free,
        ]
    }

    fn name(self) -> &'static str {
        match self {
            Rule::Watch => "watch",
            Rule::Change => "change",
            Rule::Keeper => "keeper",
            Rule::KeepOnError => "keep_on_error",
            Rule::Free => "free",
        }
    }
}

impl HasName for CancelRule {
    ghost name = { spec.cancel_rule_name };

    ghost all = { spec.cancel_rules };

    ghost found = { cancel_rule_found };

    #[tactic(auto, unfolding(crate::specs::Names::cancel_rules))]
    fn all() -> &'static [Self] {
        &[
            CancelRule::MustFinish,
            CancelRule::MustLeave,
            CancelRule::Either,
        ]
    }

    fn name(self) -> &'static str {
        match self {
            CancelRule::MustFinish => "must_finish",
            CancelRule::MustLeave => "must_leave",
            CancelRule::Either => "either",
        }
    }
}

/// When a completion routine is called, as a setting's letters say.
#[derive(Clone, Copy, Debug, PartialEq, Eq)]
pub struct Flags {
    /// Where the packet's status is a success: the letter s.
    pub on_success: bool,
    /// Where its status isn't a success: the letter e.
    pub on_error: bool,
    /// Where its cancel flag is set: the letter c.
    pub on_cancel: bool,
}

/// The flags that these letters set: of s, e and c none, some or all, each once and in this order. None for any other
/// text.
#[tactic(auto, unfolding(crate::specs::Names::every_flags))]
pub fn flags_named(letters: &str) -> Option<Flags>
    ensures { result ≡ spec.first_named spec.flags_name spec.every_flags letters.now }
{
    let (on_success, on_error, on_cancel) = match letters {
        "" => (false, false, false),
        "c" => (false, false, true),
        "e" => (false, true, false),
        "ec" => (false, true, true),
        "s" => (true, false, false),
        "sc" => (true, false, true),
        "se" => (true, true, false),
        "sec" => (true, true, true),
        _ => return None,
    };
    Some(Flags {
        on_success,
        on_error,
        on_cancel,
    })
}

/// The flags that the letters of a text set, as `flags_named` tells; none for what is no text.
impl FromValue for Flags {
    ghost form = { spec.flags_at };

    #[tactic(auto, unfolding(crate::specs::Names::flags_at))]
    fn from_value(value: &Value) -> Option<Self> {
        flags_named(value.as_str()?)
    }
}

impl HasName for Refusal {
    ghost name = { spec.refusal_name };

    ghost all = { spec.refusals };

    ghost found = { refusal_found };

    fn all() -> &'static [Self] {
        every_refusal()
    }

    fn name(self) -> &'static str {
        refusal_name(self)
    }
}
