//! A line, which is passed over from its front to its end.

use std::str;

/// What is left of a line whose entry is guessed. It knows no JSON: it passes over so many bytes whatever they are, and
/// takes values and words where the line of an entry has them.
#[derive(Drop)]
pub struct Scan<'a> {
    rest: &'a [u8],
}

/// A value that is guessed from what is next in a line. Any value, or none, is guessed where this project didn't write
/// the line.
pub trait Guess: Sized {
    /// Guesses the value that is next, and passes over it. None where it guesses none; then it may have passed over a
    /// part of it.
    fn guess(scan: &mut Scan) -> Option<Self>;
}

impl<'a> Scan<'a> {
    /// The whole line, of which nothing was passed over yet.
    pub fn new(line: &'a [u8]) -> Scan<'a> {
        Scan { rest: line }
    }

    /// How many bytes are left.
    pub fn len(&self) -> usize {
        self.rest.len()
    }

    /// Whether this byte is next.
    pub fn is_next(&self, byte: u8) -> bool {
        self.rest.first() == Some(&byte)
    }

    /// Passes over as many bytes as the text has, whatever they are. None where fewer are left, which stay.
    pub fn pass(&mut self, text: &str) -> Option<()> {
        self.rest = self.rest.get(text.len()..)?;
        Some(())
    }

    /// Passes over as many bytes as the text has, and guesses the value behind them.
    pub fn after<T: Guess>(&mut self, text: &str) -> Option<T> {
        self.pass(text)?;
        T::guess(self)
    }

    /// Passes over as many bytes as the text has, and gives what stands from there up to the next quotation mark. It
    /// passes over the mark, too. None where fewer bytes are left, where there is no mark, and where what stands before
    /// it is no UTF-8.
    pub fn word_after(&mut self, text: &str) -> Option<&'a str> {
        self.pass(text)?;
        let rest = self.rest;
        for (place, &byte) in rest.iter().enumerate() {
            if byte == b'"' {
                self.rest = &rest[place + 1..];
                return str::from_utf8(&rest[..place]).ok();
            }
        }
        None
    }
}

/// The number whose digits are next. None where there are none, where it has more than 64 bits, and where the line ends
/// with it.
impl Guess for u64 {
    fn guess(scan: &mut Scan) -> Option<u64> {
        let digits = scan.rest;
        let mut number = 0u64;
        for (place, &byte) in digits.iter().enumerate() {
            if !byte.is_ascii_digit() {
                scan.rest = &digits[place..];
                return if place > 0 { Some(number) } else { None };
            }
            number = number.checked_mul(10)?.checked_add(u64::from(byte - b'0'))?;
        }
        None
    }
}

impl Guess for u32 {
    fn guess(scan: &mut Scan) -> Option<u32> {
        u32::try_from(u64::guess(scan)?).ok()
    }
}

impl Guess for u8 {
    fn guess(scan: &mut Scan) -> Option<u8> {
        u8::try_from(u64::guess(scan)?).ok()
    }
}

/// `true` where a t is next, and else `false`. It passes over as many bytes as that word has. None where fewer are
/// left.
impl Guess for bool {
    fn guess(scan: &mut Scan) -> Option<bool> {
        let is_true = scan.is_next(b't');
        scan.pass(if is_true { "true" } else { "false" })?;
        Some(is_true)
    }
}

/// No value where an n is next: it passes over as many bytes as `null` has. Else the value that is next.
impl<T: Guess> Guess for Option<T> {
    fn guess(scan: &mut Scan) -> Option<Option<T>> {
        if scan.is_next(b'n') {
            scan.pass("null")?;
            return Some(None);
        }
        Some(Some(T::guess(scan)?))
    }
}
