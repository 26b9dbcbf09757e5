//! Which calls need a token. Source: this project's own rules.

ghost use Rattle.std.specs.Prelude.{◌≡◌};
ghost use Rattle.irp_transcript.specs.Tokens.{needs_token};

use irp_types::Call;

/// Whether a call needs a token: true of a `FinishTaken` alone, which finishes a packet that was taken from a cancel
/// slot.
pub fn needs_token(call: Call) -> bool
    ensures { result ≡ needs_token call }
{
    matches!(call, Call::FinishTaken { .. })
}
