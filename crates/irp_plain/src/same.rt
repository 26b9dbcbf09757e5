//! Whether two values are equal.

ghost use Rattle.std.specs.Prelude.{◌≡◌, true};
ghost use mathlib.Core.Logic.{◌↔◌};

/// Values that can be told apart.
pub trait Same {
    /// Whether two values are equal.
    fn is_same(&self, other: &Self) -> bool
        ensures { (result ≡ true) ↔ (self.now ≡ other.now) };
}

impl Same for u64 {
    fn is_same(&self, other: &u64) -> bool {
        *self == *other
    }
}

impl Same for usize {
    fn is_same(&self, other: &usize) -> bool {
        *self == *other
    }
}

/// Whether two lists have equal values in the same order.
pub fn are_same<T: Same>(one: &[T], other: &[T]) -> bool
    ensures { (result ≡ true) ↔ (one.now ≡ other.now) }
{
    if one.len() != other.len() {
        return false;
    }
    for place in 0..one.len() {
        if !one[place].is_same(&other[place]) {
            return false;
        }
    }
    true
}
