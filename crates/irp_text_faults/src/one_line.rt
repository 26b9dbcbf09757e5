//! Texts in one line.

ghost use Rattle.std.specs.Prelude.{◌≡◌, IfOk, true};
ghost use Rattle.irp_text_faults.specs.OneLine.{IsOneLine, is_shown};

use std::alloc::{AllocError, Global};

/// A character as it is shown in one line: a blank for one of control.
fn shown(letter: char) -> char
    ensures { is_shown result ≡ true }
{
    if letter < ' ' || ('\u{7f}' <= letter && letter < '\u{a0}') {
        ' '
    } else {
        letter
    }
}

/// A text in one line: a blank for each character of control. The one error is want of memory.
#[tactic(auto, using(crate::proofs::Joining::one_line_both, crate::proofs::Joining::one_letter))]
pub fn in_one_line(alloc: Global, text: &str) -> Result<String, AllocError>
    ensures { IfOk result (λ line. IsOneLine line.bytes.items) }
{
    let mut line = String::new(alloc);
    for letter in text.chars() {
        line.push(shown(letter))?;
    }
    Ok(line)
}
