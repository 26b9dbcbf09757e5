//! Numbers, places, spans and uses of packets in texts.

ghost use Rattle.std.specs.Prelude.{◌≡◌, IfSome, List, None, ℕ};
ghost use Rattle.irp_command_line.specs.CommandLine.{Writes};
ghost use Rattle.irp_view.specs.Spans.{IsParted, IsPlace, IsSpan, IsUse, OrNone};

use crate::orders::Span;
use irp_types::IrpRef;

/// A number in a text.
pub fn number(text: &str) -> Option<u64>
    ensures { OrNone (Writes text.now) result }
{
    match text.parse::<u64>() {
        Ok(number) => Some(number),
        Err(_) => None,
    }
}

/// A place in the history, or this one where the text is empty.
fn place(text: &str, missing: usize) -> Option<usize>
    ensures { OrNone (IsPlace missing text.now) result }
{
    if text.is_empty() {
        return Some(missing);
    }
    match number(text) {
        Some(place) => Some(place as usize),
        None => None,
    }
}

/// The texts before and behind the first two dots.
fn parts(text: &str) -> Option<(&str, &str)>
    ensures found { IfSome result (λ found. IsParted text.now found.0.now found.1.now) }
    ensures alone { (from to : List ℕ) → IsParted text.now from to
        → IfSome result (λ found. (found.0.now ≡ from) × (found.1.now ≡ to)) }
    ensures none { result ≡ None → (from to : List ℕ) → IsParted text.now from to → ⊥ }
{
    let (from, rest) = text.split_once('.')?;
    let to = rest.strip_prefix('.')?;
    Some((from, to))
}

/// The span that a text names: `A..B`, where A isn't above B, `A..` or `..B`.
pub fn span_in(text: &str) -> Option<Span>
    ensures { OrNone (IsSpan text.now) result }
{
    let (from, to) = parts(text)?;
    let from = place(from, 0)?;
    let to = place(to, usize::MAX)?;
    if from <= to {
        Some(Span { from, to })
    } else {
        None
    }
}

/// The use of a packet that two texts name.
pub fn use_in(slot: &str, use_no: &str) -> Option<IrpRef>
    ensures { OrNone (IsUse slot.now use_no.now) result }
{
    let slot = number(slot)?;
    let use_no = number(use_no)?;
    Some(IrpRef {
        slot: slot as usize,
        use_no,
    })
}
