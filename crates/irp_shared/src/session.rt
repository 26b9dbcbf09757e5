//! What a type parameter says of a session. Source: this project's own rules.

ghost use Rattle.std.specs.Prelude.{ℕ};
ghost use Rattle.irp_types.specs.State.{Fixed};
ghost use Rattle.irp_types.specs.declared.asked.Asked.{Asked};
ghost use Rattle.irp_types.specs.declared.limit.Limit.TheVariants.{Sixteen};
ghost use Rattle.irp_routines.specs.Tables.{no_tables};

use std::marker::Brand;
use std::sync::ledger::Ledger;

/// What a type says of one session of a shared book, for contracts alone: the ledger in which its seats count (its name
/// and its parts, as [`Ledger`] has them), how many seats it has, what is fixed while it lasts, and how a question may
/// be answered in it. A `Shared` and the seats that were opened with it have the same such type, so a seat of another
/// session can't be handed in.
///
/// A caller writes a function that is generic in `A: Ask` and `L: Session` for all that it does with a session, and
/// calls it once, at the type of whoever is asked and at [`Brand`]. The proof of that call says what `L` stands for, in
/// the `Invariants.antt` of the function that makes it (as in `crates/irp_example/proofs/bench/run`).
pub trait Session: Ledger {
    /// How many seats there are.
    ghost seats: { ℕ };

    /// How many remove locks there are, the tables of the asker, and the limit on packets and stacks.
    ghost fixed: { Fixed };

    /// How a question may be answered in the session. A condition of opening it is that the asker answers so, and all
    /// answers in its transcript are so.
    ghost may: { Asked → Type 0 };
}

impl Session for Brand {
    ghost seats = { 0 };

    ghost fixed = { record { locks = 0; tables = no_tables; limit = Sixteen } };

    ghost may = { λ asked. Unit {0} };
}
