//! Words that grow piece by piece.

ghost use Rattle.std.specs.Prelude.{◌≡◌, ℕ, List, [], IfErr, IfOk, IfSome, None, Some, decimal};
ghost use Rattle.irp_names.specs.Small.{hex_text};
ghost use Rattle.irp_names.specs.Sinks.{Says, emptied, in_marks};

use crate::small::Hex;
use std::alloc::{AllocError, Global};
use std::fmt;
use std::marker::Model;

/// Words that grow piece by piece. Where memory runs out they remember that, and take nothing more.
///
/// Contracts see them as their bytes, and as None where memory ran out.
#[derive(Drop)]
pub struct Sink {
    words: String,
    /// Whether memory ran out.
    ran_out: bool,
}

impl Model for Sink {
    ghost use Rattle.std.specs.Prelude.{List, Option, None, Some, ℕ, if◌then◌else◌};

    ghost Value = { Option (List ℕ) };

    ghost view = { λ sink. if sink.ran_out then None else Some sink.words.bytes.items };
}

impl Sink {
    /// No words. It takes no memory.
    pub fn new(alloc: Global) -> Sink
        ensures { result ≡ Some [] }
    {
        Sink {
            words: String::new(alloc),
            ran_out: false,
        }
    }

    /// Puts words.
    pub fn put(&mut self, words: &str)
        ensures { Says words.now self.old self.new }
    {
        if !self.ran_out && self.words.push_str(words).is_err() {
            self.ran_out = true;
        }
    }

    /// Puts a number in decimal.
    pub fn number(&mut self, number: u64)
        ensures { Says (decimal number) self.old self.new }
    {
        let mut buffer = itoa::Buffer::new();
        self.put(buffer.format(number));
    }

    /// Puts a number as `0x10`.
    pub fn hexadecimal(&mut self, number: u64)
        ensures { Says (hex_text number) self.old self.new }
    {
        self.show(Hex(number));
    }

    /// Puts what is displayed.
    pub fn show<D: fmt::Display + Drop>(&mut self, shown: D)
        ensures { IfSome (D.output shown) (λ words. Says words self.old self.new) }
    {
        if !self.ran_out && self.words.write_fmt(shown).is_err() {
            self.ran_out = true;
        }
    }

    /// Puts words in quotation marks.
    pub fn quoted(&mut self, words: &str)
        ensures { Says (in_marks words.now) self.old self.new }
    {
        self.put("\"");
        self.put(words);
        self.put("\"");
    }

    /// The words so far; what stood there before, where memory ran out.
    pub fn words(&self) -> &str
        ensures { (words : List ℕ) → self.now ≡ Some words → result.now ≡ words }
    {
        self.words.as_str()
    }

    /// Takes the words away. That memory ran out is remembered.
    pub fn clear(&mut self)
        ensures { self.new ≡ emptied self.old }
    {
        self.words.clear();
    }

    /// Remembers that memory ran out elsewhere.
    pub fn run_out(&mut self)
        ensures { self.new ≡ None }
    {
        self.ran_out = true;
    }

    /// The words. The one error is that memory ran out.
    pub fn finish(self) -> Result<String, AllocError>
        ensures ok { IfOk result (λ words. self ≡ Some words.bytes.items) }
        ensures err { IfErr result (λ fault. self ≡ None) }
    {
        if self.ran_out {
            return Err(AllocError);
        }
        Ok(self.words)
    }
}
