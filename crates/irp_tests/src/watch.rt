//! A gate that watches the steps of a script.

use crate::notes::waits;
use crate::scenes::{Passing, Scene};
use irp_script::{Due, Gate};
use std::sync::atomic::{AtomicBool, AtomicU64, Ordering};

/// A gate of a scene: how many steps the first seat has entered, and the others; how many were answered; and whether a
/// seat has waited in vain, or a call of the gate came out of turn.
#[derive(Drop)]
pub struct Watch<'a> {
    scene: &'a Scene,
    first: AtomicU64,
    others: AtomicU64,
    answers: AtomicU64,
    is_wrong: AtomicBool,
}

impl<'a> Watch<'a> {
    /// A gate of this scene, that no step has entered.
    pub fn new(scene: &'a Scene) -> Watch<'a> {
        Watch {
            scene,
            first: AtomicU64::new(0),
            others: AtomicU64::new(0),
            answers: AtomicU64::new(0),
            is_wrong: AtomicBool::new(false),
        }
    }

    /// How many steps have begun.
    fn begun(&self) -> u64 {
        let first = self.first.load(Ordering::SeqCst);
        first.wrapping_add(self.others.load(Ordering::SeqCst))
    }

    /// A step begins or was answered, before which so many had begun and so many had been answered: it has to come in
    /// its turn, with its seat and its place, where steps have to.
    fn called(&self, due: Due, begun: u64, answers: u64) {
        let own = self.scene.steps.get(due.step as usize);
        let is_own = matches!(own, Some(step) if step.seat == due.seat);
        let is_in_turn = is_own && u64::from(due.step) == answers && begun == answers;
        if matches!(self.scene.passing, Passing::InTurn(_)) && !is_in_turn {
            self.is_wrong.store(true, Ordering::SeqCst);
        }
    }

    /// Whether no seat has waited in vain, each call came in turn, and as many steps were answered as have to be.
    pub fn is_right(&self) -> bool {
        let answers = self.answers.load(Ordering::SeqCst);
        let are_all = match self.scene.passing {
            Passing::InTurn(wanted) => answers == wanted,
            Passing::Free | Passing::InPairs => true,
        };
        are_all && !self.is_wrong.load(Ordering::SeqCst)
    }
}

impl Gate for Watch<'_> {
    fn enter(&self, due: Due) {
        self.called(due, self.begun(), self.answers.load(Ordering::SeqCst));
        let (own, other) = if due.seat == 0 {
            (&self.first, &self.others)
        } else {
            (&self.others, &self.first)
        };
        let until = own.fetch_add(1, Ordering::SeqCst).saturating_add(1);
        let meets = matches!(self.scene.passing, Passing::InPairs);
        if meets && self.is_right() && !waits(other, until) {
            self.is_wrong.store(true, Ordering::SeqCst);
        }
    }

    fn answered(&self, due: Due) {
        let answers = self.answers.fetch_add(1, Ordering::SeqCst);
        self.called(due, self.begun().wrapping_sub(1), answers);
    }
}
