//! What a script has, as far as its members name that.

use crate::nodes::Node;
use crate::search::{Bounds, Text};

/// What a script has, as far as its members name that.
#[derive(Clone, Copy)]
pub struct Around<'t> {
    /// The whole script.
    pub whole: Node<'t>,
    pub form: u64,
    pub seats: u64,
    pub slots: u64,
}

/// The number under a key; 0 where there is none.
fn number_under(whole: Node, key: &str) -> u64 {
    whole.get(key).and_then(Node::number).unwrap_or(0)
}

impl<'t> Around<'t> {
    /// What this script has.
    pub fn of(whole: Node<'t>) -> Around<'t> {
        Around {
            whole,
            form: number_under(whole, "form"),
            seats: number_under(whole, "seats"),
            slots: number_under(whole, "slots"),
        }
    }

    /// What is settled for its parts, in `setup` or elsewhere.
    pub fn bounds(self, in_setup: bool) -> Bounds {
        let text = if in_setup { Text::Setup } else { Text::Script };
        Bounds {
            text,
            two: self.form != 1,
            seats: 0,
        }
    }

    /// How many completion routines there are of a rule.
    pub fn routines(self, rule: &str) -> u64 {
        let mut count = 0u64;
        let mut next = self.whole.get("completions").and_then(Node::first);
        for _ in 0..self.whole.tokens.len() {
            let Some(routine) = next else {
                return count;
            };
            if routine.begins_with(rule) {
                count = count.saturating_add(1);
            }
            next = routine.next();
        }
        count
    }
}
