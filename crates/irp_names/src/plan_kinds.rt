//! The kinds of plans, by their names. Source: this project's own format (docs/FORMATS.md).

ghost use Rattle.std.specs.Prelude.{◌≡◌, ◌<◌, [], Some, get_or, length, map};
ghost use Rattle.irp_names.specs.Plans as spec;

use irp_forms::Part;

/// What a dispatch plans, by its name.
#[derive(Clone, Copy, PartialEq, Eq)]
pub enum PlanKind {
    Finish,
    Hold,
    HoldSlot,
    Skip,
    Forward,
    ForwardPend,
}

/// Kinds of plans, a row each: which it is, its name in scripts and transcripts (this project's own), and what follows
/// that.
macro_rules! plans {
    ($($kind:ident $name:literal [$($part:ident)*];)*) => {
        [$((PlanKind::$kind, $name, &[$(Part::$part),*])),*]
    };
}

/// A row.
type Form = (PlanKind, &'static str, &'static [Part]);

/// Every kind, in the order of the enum.
static PLANS: [Form; 6] = plans! {
    Finish "finish" [Status Information];
    Hold "hold" [CancelOrEnd];
    HoldSlot "hold_slot" [];
    Skip "skip" [];
    Forward "forward" [SettingOrEnd];
    ForwardPend "forward_pend" [SettingOrEnd];
};

/// Every row. No other function names the table, since a check reads it whole at each that does.
#[tactic(auto, unfolding(crate::specs::Plans::plan_rows, crate::specs::Plans::plan_parts))]
fn forms() -> &'static [Form]
    ensures rows { map (λ form. (form.1.now, form.0)) result.now ≡ spec.plan_rows }
    ensures words { map (λ form. form.1.now) result.now ≡ map (λ row. row.0) spec.plan_rows }
    ensures parts { map (λ form. form.2.now) result.now ≡ spec.plan_parts }
    ensures count { length result.now ≡ 6 }
{
    &PLANS
}

/// The kind of the first of these rows that has this name.
fn kind_among(forms: &[Form], word: &str) -> Option<PlanKind>
    ensures { result ≡ spec.under word.now (map (λ form. (form.1.now, form.0)) forms.now) }
{
    for form in forms {
        if word == form.1 {
            return Some(form.0);
        }
    }
    None
}

/// The kind at a place of these rows. None behind the last.
fn kind_at(forms: &[Form], place: usize) -> Option<PlanKind>
    ensures { result ≡ spec.placed place (map (λ form. (form.1.now, form.0)) forms.now) }
{
    Some(forms.get(place)?.0)
}

/// The row at a place of these.
fn row_at(forms: &'static [Form], at: usize) -> Form
    requires { at < length forms.now }
    ensures word { result.1.now ≡ get_or (map (λ form. form.1.now) forms.now) at [] }
    ensures parts { result.2.now ≡ get_or (map (λ form. form.2.now) forms.now) at [] }
{
    forms[at]
}

impl PlanKind {
    /// The kind that has this name. None where none has it.
    #[tactic(auto, unfolding(crate::specs::Plans::kind_named))]
    pub fn named(word: &str) -> Option<PlanKind>
        ensures { result ≡ spec.kind_named word.now }
    {
        kind_among(forms(), word)
    }

    /// The kind at a place, from 0, in the order of the enum. None behind the last.
    #[tactic(auto, unfolding(crate::specs::Plans::kind_at))]
    pub fn at(place: usize) -> Option<PlanKind>
        ensures { result ≡ spec.kind_at place }
    {
        kind_at(forms(), place)
    }

    /// Its name, as scripts and transcripts have it.
    #[tactic(auto, unfolding(crate::specs::Plans::plan_word))]
    pub fn word(self) -> &'static str
        ensures { result.now ≡ spec.plan_word self }
    {
        row_at(forms(), self as usize).1
    }

    /// What follows its name, in a script.
    #[tactic(auto, unfolding(crate::specs::Plans::parts_of))]
    pub fn parts(self) -> &'static [Part]
        ensures { result.now ≡ spec.parts_of self }
    {
        row_at(forms(), self as usize).2
    }
}

/// Each kind is the first whose name it has: no two kinds have one name.
#[tactic(auto, unfolding(crate::specs::Plans::plan_rows, crate::specs::Plans::plan_word, crate::specs::Plans::kind_named))]
pub fn plans_are_named_apart()
    ensures { (one : PlanKind) → spec.kind_named (spec.plan_word one) ≡ Some one }
{}
