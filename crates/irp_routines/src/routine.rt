//! A completion routine beside its rule.

ghost use Rattle.std.specs.Prelude.{◌≡◌, true};
ghost use Rattle.irp_types.specs.Rules.{CanShow, is_allowed};
ghost use Rattle.irp_types.specs.declared.shown.Shown.{Shown};
ghost use Rattle.irp_types.specs.declared.answer.Answer.{Answer};

use irp_types::{Answer, Rule, Shown};

/// The code of a completion routine: what it answers to what it is shown.
pub type CompletionClosure = Box<dyn Fn(Shown) -> Answer + Send>;

/// A completion routine: its code, and the rule that its answers keep (WDK: "Implementing an IoCompletion Routine"; the
/// rules are this project's own).
#[derive(Drop)]
pub struct Routine {
    rule: Rule,
    run: CompletionClosure,
    ghost callable: { (shown : Shown) → CanShow shown → CompletionClosure.pre run shown },
    ghost keeps_rule: { (shown : Shown) (answer : Answer) → CanShow shown
        → CompletionClosure.post run shown answer → is_allowed rule shown answer ≡ true },
}

impl Routine {
    /// A completion routine of this rule, on condition that its code may be called on everything that can be shown, and
    /// that each answer which it may give there is allowed by the rule. It takes no memory.
    pub fn new(rule: Rule, run: CompletionClosure) -> Routine
        requires callable { (shown : Shown) → CanShow shown → CompletionClosure.pre run shown }
        requires keeps_rule { (shown : Shown) (answer : Answer) → CanShow shown
            → CompletionClosure.post run shown answer → is_allowed rule shown answer ≡ true }
        ensures rule { result.rule ≡ rule }
        ensures run { result.run ≡ run }
    {
        Routine { rule, run }
    }

    /// The rule that its answers keep.
    pub fn rule(&self) -> Rule
        ensures { result ≡ self.now.rule }
    {
        self.rule
    }

    /// Asks it.
    pub(crate) fn ask(&self, shown: Shown) -> Answer
        ensures asked { CompletionClosure.post self.now.run shown result }
        ensures allowed { is_allowed self.now.rule shown result ≡ true }
    {
        shown.in_range();
        (self.run)(shown)
    }
}
