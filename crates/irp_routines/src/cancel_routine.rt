//! A cancel routine beside its rule.

ghost use Rattle.std.specs.Prelude.{◌≡◌, true};
ghost use Rattle.irp_types.specs.Rules.{CanShow, is_cancel_allowed};
ghost use Rattle.irp_types.specs.declared.shown.Shown.{Shown};
ghost use Rattle.irp_types.specs.declared.answer.CancelAnswer.{CancelAnswer};

use irp_types::{CancelAnswer, CancelRule, Shown};

/// The code of a cancel routine: what it answers to what it is shown.
pub type CancelClosure = Box<dyn Fn(Shown) -> CancelAnswer + Send>;

/// A cancel routine: its code, and the rule that its answers keep (WDK: "Implementing a Cancel Routine"; the rules are
/// this project's own).
#[derive(Drop)]
pub struct CancelRoutine {
    rule: CancelRule,
    run: CancelClosure,
    ghost callable: { (shown : Shown) → CanShow shown → CancelClosure.pre run shown },
    ghost keeps_rule: { (shown : Shown) (answer : CancelAnswer) → CanShow shown
        → CancelClosure.post run shown answer → is_cancel_allowed rule answer ≡ true },
}

impl CancelRoutine {
    /// A cancel routine of this rule, on condition that its code may be called on everything that can be shown, and
    /// that each answer which it may give there is allowed by the rule. It takes no memory.
    pub fn new(rule: CancelRule, run: CancelClosure) -> CancelRoutine
        requires callable { (shown : Shown) → CanShow shown → CancelClosure.pre run shown }
        requires keeps_rule { (shown : Shown) (answer : CancelAnswer) → CanShow shown
            → CancelClosure.post run shown answer → is_cancel_allowed rule answer ≡ true }
        ensures rule { result.rule ≡ rule }
        ensures run { result.run ≡ run }
    {
        CancelRoutine { rule, run }
    }

    /// The rule that its answers keep.
    pub fn rule(&self) -> CancelRule
        ensures { result ≡ self.now.rule }
    {
        self.rule
    }

    /// Asks it.
    pub(crate) fn ask(&self, shown: Shown) -> CancelAnswer
        ensures asked { CancelClosure.post self.now.run shown result }
        ensures allowed { is_cancel_allowed self.now.rule result ≡ true }
    {
        shown.in_range();
        (self.run)(shown)
    }
}
