//! The completion routines and the cancel routines of a script.

ghost use Rattle.std.specs.Prelude.{◌≡◌};
ghost use Rattle.serde_json.specs.View.{view};
ghost use Rattle.irp_script_reader.specs.Routines as spec;

use crate::script::{Behaviour, CompletionRoutine};
use irp_forms::{nth, of_items};
use irp_types::limits::MOST_ROUTINES;
use irp_types::{Known, Replacement, Rule};
use serde_json::Value;

/// A replacement.
fn replace_at(value: &Value) -> Option<Behaviour>
    ensures { result ≡ spec.replace_at (view value.now) }
{
    of_items(value, 3)?;
    let name = value.get(0).and_then(Value::as_str)?;
    let replacement = Replacement {
        status: nth(1, value)?,
        information: nth(2, value)?,
    };
    (name == "replace").then_some(Behaviour::Replace(replacement))
}

/// A behaviour.
#[tactic(auto, unfolding(crate::specs::Routines::behaviour_at))]
fn behaviour_at(value: &Value) -> Option<Behaviour>
    ensures { result ≡ spec.behaviour_at (view value.now) }
{
    match value {
        Value::String(name) => match name.as_str() {
            "continue" => Some(Behaviour::Continue),
            "keep" => Some(Behaviour::Keep),
            _ => None,
        },
        _ => replace_at(value),
    }
}

/// A completion routine.
#[tactic(auto, unfolding(crate::specs::Routines::completion_at))]
pub fn completion_at(value: &Value) -> Option<CompletionRoutine>
    ensures { result ≡ spec.completion_at (view value.now) }
{
    of_items(value, 3)?;
    Some(CompletionRoutine {
        rule: nth(0, value)?,
        on_ok: behaviour_at(value.get(1)?)?,
        on_err: behaviour_at(value.get(2)?)?,
    })
}

impl Behaviour {
    /// Whether it continues, and replaces nothing.
    fn continues(self) -> bool
        ensures { result ≡ spec.continues self }
    {
        matches!(self, Behaviour::Continue)
    }

    /// Whether it keeps the packet.
    fn keeps(self) -> bool
        ensures { result ≡ spec.keeps self }
    {
        matches!(self, Behaviour::Keep)
    }

    /// Whether what it replaces by can complete a packet.
    fn can_complete(self) -> bool
        ensures { result ≡ spec.can_complete self }
    {
        match self {
            Behaviour::Continue => true,
            Behaviour::Keep => true,
            Behaviour::Replace(replacement) => replacement.status.is_completable(),
        }
    }
}

/// Whether a rule takes these behaviours.
fn takes_behaviours(rule: Rule, on_ok: Behaviour, on_err: Behaviour) -> bool
    ensures { result ≡ spec.takes_behaviours rule on_ok on_err }
{
    match rule {
        Rule::Watch => on_ok.continues() && on_err.continues(),
        Rule::Change => !on_ok.keeps() && !on_err.keeps(),
        Rule::Keeper => on_ok.keeps() && on_err.keeps(),
        Rule::KeepOnError => on_ok.continues() && on_err.keeps(),
        Rule::Free => true,
    }
}

impl CompletionRoutine {
    /// Whether its behaviours are those of its rule: watch continues twice; change continues or replaces; keeper keeps
    /// twice; keep_on_error continues on a success and else keeps; free does any of these. What replaces can complete a
    /// packet, whatever the rule (this project's own format, docs/FORMATS.md).
    pub fn obeys_its_rule(self) -> bool
        ensures { result ≡ spec.obeys_its_rule self }
    {
        self.on_ok.can_complete()
            && self.on_err.can_complete()
            && takes_behaviours(self.rule, self.on_ok, self.on_err)
    }
}

/// One more than so many of one kind, where there may be one more.
pub fn one_more(count: u32) -> Option<u32>
    ensures { result ≡ spec.one_more count }
{
    (count < MOST_ROUTINES).then(|| count + 1)
}

/// The counts with one more routine of a rule, where there may be one more.
#[tactic(auto, unfolding(crate::specs::Routines::counted))]
pub fn counted(counts: Known, rule: Rule) -> Option<Known>
    ensures { result ≡ spec.counted counts rule }
{
    match rule {
        Rule::Watch => one_more(counts.watch).map(|watch| Known { watch, ..counts }),
        Rule::Change => one_more(counts.change).map(|change| Known { change, ..counts }),
        Rule::Keeper => one_more(counts.keeper).map(|keeper| Known { keeper, ..counts }),
        Rule::KeepOnError => one_more(counts.keep_on_error).map(|keep_on_error| Known {
            keep_on_error,
            ..counts
        }),
        Rule::Free => one_more(counts.free).map(|free| Known { free, ..counts }),
    }
}
