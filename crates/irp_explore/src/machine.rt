//! What is explored.

ghost use Rattle.std.specs.Prelude.{◌≡◌, ℕ, true, Option, IfOk};
ghost use mathlib.Core.Logic.{◌↔◌};
ghost use Rattle.irp_explore.specs.Orders.{IsSettled};

use std::alloc::{AllocError, Global};

/// A machine that several seats move, one step after another. In each state a seat has one next step, or none left
/// (this project's own rule).
pub trait Machine {
    /// A state.
    type State: Drop;

    // How many seats there are.
    ghost seats: { Self → ℕ };

    // What a seat's next step makes of a state: another state, or none where the seat has no step left.
    ghost moves: { Self → Self.State → ℕ → Option Self.State → Type 0 };

    // The mark of a state.
    ghost mark: { Self → Self.State → ℕ };

    /// How many seats there are.
    fn seats(&self) -> u32
        ensures { result ≡ seats self.now };

    /// Makes the next step of a seat: the state behind it, or none where the seat has no step left. The given state
    /// stays as it was.
    ///
    /// # Errors
    ///
    /// `AllocError` where memory runs out.
    fn step(
        &self,
        alloc: Global,
        state: &Self::State,
        seat: u32,
    ) -> Result<Option<Self::State>, AllocError>
        ensures { IfOk result (λ after. moves self.now state.now seat after) };

    /// The mark of a state, a number by which states are sorted. Few states should share one: what is found doesn't
    /// depend on it, but how long it takes does.
    fn mark(&self, state: &Self::State) -> u64
        ensures { result ≡ mark self.now state.now };

    /// Whether two states are equal.
    fn is_same(&self, one: &Self::State, other: &Self::State) -> bool
        ensures { (result ≡ true) ↔ (one.now ≡ other.now) };

    // In a state a seat has one next step at most.
    ghost settled: { (machine : Self) → IsSettled (moves machine) };
}
