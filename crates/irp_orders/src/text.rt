//! Words, and what is displayed behind them.

ghost use Rattle.std.specs.Prelude.{◌≡◌, ◌++◌, IfSome};
ghost use Rattle.irp_names.specs.Sinks.{Says};
ghost use Rattle.irp_names.specs.Small.{hex_text};
ghost use Rattle.irp_orders.specs.Counts as spec;

use irp_names::Sink;
use std::fmt;

/// Puts words, and what is displayed behind them.
#[tactic(auto, using(irp_names::proofs::Saying::says_both))]
pub fn tell<D: fmt::Display + Drop>(out: &mut Sink, words: &str, shown: D)
    ensures { IfSome (D.output shown) (λ told. Says (words.now ++ told) out.old out.new) }
{
    out.put(words);
    out.show(shown);
}

/// What one of so many, or several, are called.
fn called<'a>(count: u128, one: &'a str, several: &'a str) -> &'a str
    ensures { result.now ≡ spec.called count one.entry.now several.entry.now }
{
    if count == 1 { one } else { several }
}

/// Puts how many orders there are.
#[tactic(auto, using(irp_names::proofs::Saying::says_both))]
pub fn put_orders(out: &mut Sink, orders: u128)
    ensures { Says (spec.orders_text orders) out.old out.new }
{
    out.show(orders);
    out.put(called(orders, " order", " orders"));
}

/// Puts how many outcomes there are.
#[tactic(auto, using(irp_names::proofs::Saying::says_both))]
pub fn put_outcomes(out: &mut Sink, outcomes: usize)
    ensures { Says (spec.outcomes_text outcomes) out.old out.new }
{
    out.show(outcomes);
    out.put(called(outcomes as u128, " outcome", " outcomes"));
}

/// Puts words, and a number as `0x10` behind them.
#[tactic(auto, using(irp_names::proofs::Saying::says_both))]
pub fn tell_hexadecimal(out: &mut Sink, words: &str, number: u64)
    ensures { Says (words.now ++ hex_text number) out.old out.new }
{
    out.put(words);
    out.hexadecimal(number);
}
