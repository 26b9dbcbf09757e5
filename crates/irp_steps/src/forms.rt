//! The form of a script's transcripts. Source: this project's own format (docs/FORMATS.md).

ghost use Rattle.std.specs.Prelude.{◌≡◌};
ghost use Rattle.irp_steps.specs.Forms.{form_of};

use irp_script_reader::ScriptForm;
use irp_transcript::Form;

/// The form of the transcripts of a script of this form: those of form 4 have form 2, with as many cancel slots.
pub fn form_of(form: ScriptForm) -> Form
    ensures { result ≡ form_of form }
{
    match form {
        ScriptForm::One => Form::One,
        ScriptForm::Two { slots } => Form::Two { slots },
        ScriptForm::Four { slots } => Form::Two { slots },
    }
}
