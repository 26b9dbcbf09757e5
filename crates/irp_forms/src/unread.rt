//! Why a JSON value wasn't read. Source: this project's own rules.

ghost use Rattle.std.specs.Prelude.{◌≡◌, IfErr};
ghost use Rattle.irp_forms.specs.Parts.{Gives};
ghost use Rattle.irp_forms.specs.declared.unread.Unread.TheVariants.{Form};

use thiserror::Error;

/// Why a JSON value wasn't read.
#[derive(Clone, Copy, Debug, PartialEq, Eq, Error)]
pub enum Unread {
    /// The value doesn't have the form.
    #[error("the value doesn't have the form")]
    Form,
    /// Memory ran out.
    #[error("memory ran out")]
    NoMemory,
}

/// What was read. It takes no memory.
///
/// # Errors
///
/// `Unread::Form` where nothing was read, and no other.
pub fn form_of<T>(read: Option<T>) -> Result<T, Unread>
    ensures reads { Gives result read }
    ensures refuses { IfErr result (λ why. why ≡ Form) }
{
    read.ok_or(Unread::Form)
}
