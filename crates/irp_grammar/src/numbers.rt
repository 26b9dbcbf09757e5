//! Numbers.

ghost use Rattle.std.specs.Prelude.{◌≡◌, ◌≤◌, IfSome};
ghost use Rattle.irp_grammar.specs.Numbers as spec;

/// Whether the byte at a place is this one.
fn has_byte(text: &str, place: usize, byte: u8) -> bool
    ensures { result ≡ spec.has_byte text.now place byte }
{
    match text.as_bytes().get(place) {
        Some(there) => *there == byte,
        None => false,
    }
}

/// Whether a word is meant as a number: it begins with a digit.
pub fn begins_with_digit(text: &str) -> bool
    ensures { result ≡ spec.begins_with_digit text.now }
{
    match text.as_bytes().first() {
        Some(byte) => byte.is_ascii_digit(),
        None => false,
    }
}

/// The number that a word is: decimal digits without a leading zero, or `0x` and hexadecimal digits. None for any other
/// word, and for a number from 2^64 on.
pub fn number_in(text: &str) -> Option<u64>
    ensures { IfSome result (λ number. number ≡ spec.number_in text.now) }
{
    if has_byte(text, 0, b'0') && has_byte(text, 1, b'x') {
        return number_of(text.strip_prefix("0x")?, 16);
    }
    if text.len() > 1 && has_byte(text, 0, b'0') {
        return None;
    }
    number_of(text, 10)
}

/// Whether each byte is a hexadecimal digit.
fn are_digits(digits: &str) -> bool {
    for byte in digits.as_bytes() {
        if !byte.is_ascii_hexdigit() {
            return false;
        }
    }
    true
}

/// The number that these digits are, and nothing but digits.
fn number_of(digits: &str, radix: u32) -> Option<u64>
    requires least { 2 ≤ radix }
    requires most { radix ≤ 36 }
    ensures { IfSome result (λ number. number ≡ spec.numeral radix digits.now) }
{
    if !are_digits(digits) {
        return None;
    }
    match u64::from_str_radix(digits, radix) {
        Ok(number) => Some(number),
        Err(_) => None,
    }
}
