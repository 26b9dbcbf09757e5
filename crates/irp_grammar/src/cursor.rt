//! The words of a line, taken one after the other, and what is wrong with one.

ghost use Rattle.std.specs.Prelude.{◌≡◌, ◌≢◌, IfOk, IfSome, MatchBool, None, OnSome, Some, drop, length, option_map, string_bytes};
ghost use Rattle.irp_names.specs.Sinks.{Says};
ghost use Rattle.irp_grammar.specs.Lines.{ahead, first_of, next_of, texts};
ghost use Rattle.irp_grammar.specs.Faults.{AreFaultLines, IsFaultLine, SaysOne, hint_said, place_said, word_said};

use crate::wanted::Wanted;
use irp_names::Sink;
use std::alloc::{AllocError, Global};

/// A word of a line.
#[derive(Clone, Copy)]
pub struct Word<'a> {
    pub text: &'a str,
    /// Its column, from 1, in bytes.
    pub column: usize,
}

/// What is wrong with a line (this project's own rule).
#[derive(Clone, Copy)]
pub struct WordsFault<'a> {
    /// The line, from 1; 0 where it is of no line.
    pub line: usize,
    /// The column, from 1, in bytes.
    pub column: usize,
    /// The word that stands there; none where the line ends.
    pub word: Option<&'a str>,
    /// What was expected in its place.
    pub wanted: Wanted,
    /// What may be meant.
    pub hint: Option<&'a str>,
}

impl<'a> WordsFault<'a> {
    /// The fault of a whole text.
    pub fn of_text(wanted: Wanted) -> WordsFault<'a>
        ensures { result ≡
            record { line = 0; column = 0; word = None; wanted = wanted; hint = None } }
    {
        WordsFault {
            line: 0,
            column: 0,
            word: None,
            wanted,
            hint: None,
        }
    }

    /// Puts the place of the fault, and what stands there.
    #[tactic(auto, using(irp_names::proofs::Saying::says_both))]
    fn write_place(&self, text: &mut Sink)
        ensures { Says (place_said self.now) text.old text.new }
    {
        if self.line == 0 {
            text.put("the text");
            return;
        }
        text.put("line ");
        text.number(self.line as u64);
        text.put(", column ");
        text.number(self.column as u64);
        text.put(": ");
        put_word(text, self.word);
    }

    /// Puts the fault, in a line.
    fn write(&self, alloc: Global, text: &mut Sink)
        ensures { SaysOne (IsFaultLine self.now) text.old text.new }
    {
        self.write_place(text);
        text.put("; expected ");
        self.wanted.write(alloc, text);
        put_hint(text, self.hint);
        text.put("\n");
    }
}

/// Puts the word that stands there, or that none does.
fn put_word(text: &mut Sink, word: Option<&str>)
    ensures { Says (word_said word.entry) text.old text.new }
{
    match word {
        Some(word) => text.quoted(word),
        None => text.put("the line ends"),
    }
}

/// Puts what may be meant.
fn put_hint(text: &mut Sink, hint: Option<&str>)
    ensures { Says (hint_said hint.entry) text.old text.new }
{
    if let Some(hint) = hint {
        text.put(". Did you mean ");
        text.put(hint);
        text.put("?");
    }
}

/// A line for each fault, in order. The one error is want of memory.
pub fn fault_lines(alloc: Global, faults: &[WordsFault<'_>]) -> Result<String, AllocError>
    ensures { IfOk result (λ text. AreFaultLines faults.now (string_bytes text)) }
{
    let mut text = Sink::new(alloc);
    for fault in faults {
        fault.write(alloc, &mut text);
    }
    text.finish()
}

/// The words of a line that are left, and what is wrong with the line.
///
/// What takes words gives None where the line isn't taken: then the cursor keeps the line's fault, or none where memory
/// ran out.
#[derive(Clone, Copy)]
pub struct Cursor<'a, 'b> {
    /// The words that are left.
    words: &'b [Word<'a>],
    line: usize,
    end: usize,
    fault: Option<WordsFault<'a>>,
}

impl<'a, 'b> Cursor<'a, 'b> {
    /// The words of this line, which ends at this column.
    pub fn new(words: &'b [Word<'a>], line: usize, end: usize) -> Cursor<'a, 'b>
        ensures { ahead result ≡ texts words.now }
    {
        Cursor {
            words,
            line,
            end,
            fault: None,
        }
    }

    /// The line, from 1.
    pub fn line(&self) -> usize {
        self.line
    }

    /// How many words are left.
    pub fn left(&self) -> usize
        ensures { result ≡ length (ahead self.now) }
    {
        self.words.len()
    }

    /// The column of the next word, or of the line's end.
    pub fn column(&self) -> usize {
        match self.words.first() {
            Some(word) => word.column,
            None => self.end,
        }
    }

    /// The line's fault.
    pub fn fault(&self) -> Option<WordsFault<'a>> {
        self.fault
    }

    /// None: the next word, or the line's end, isn't what was wanted.
    pub fn fails<T>(&mut self, wanted: Wanted) -> Option<T>
        ensures { result ≡ None }
    {
        self.fault = Some(WordsFault {
            line: self.line,
            column: self.column(),
            word: self.peek(),
            wanted,
            hint: None,
        });
        None
    }

    /// The next word, which is left there.
    pub fn peek(&self) -> Option<&'a str>
        ensures { option_map (λ text. text.now) result ≡ first_of (ahead self.now) }
    {
        match self.words.first() {
            Some(word) => Some(word.text),
            None => None,
        }
    }

    /// Passes over the next word.
    pub fn pass(&mut self)
        ensures { ahead self.new ≡ drop 1 (ahead self.old) }
    {
        if !self.words.is_empty() {
            self.words = &self.words[1..];
        }
    }

    /// The next word, which is left there; an empty text where the line ends.
    pub fn text(&self) -> &'a str
        ensures { result.now ≡ next_of (ahead self.now) }
    {
        match self.peek() {
            Some(text) => text,
            None => "",
        }
    }

    /// Whether the next word is this one, which is then taken.
    pub fn takes(&mut self, text: &str) -> bool
        ensures { MatchBool result
            ((next_of (ahead self.old) ≡ text.now) × (ahead self.new ≡ drop 1 (ahead self.old)))
            ((next_of (ahead self.old) ≢ text.now) × (ahead self.new ≡ ahead self.old)) }
    {
        if self.text() == text {
            self.pass();
            true
        } else {
            false
        }
    }

    /// What the next word was read as, and passes over it; where it was read as nothing, it isn't what was wanted.
    pub fn taken<T>(&mut self, read: Option<T>, wanted: Wanted) -> Option<T>
        ensures read { IfSome result (λ value. read ≡ Some value) }
        ensures passed { OnSome result (ahead self.new ≡ drop 1 (ahead self.old)) }
    {
        match read {
            Some(value) => {
                self.pass();
                Some(value)
            }
            None => self.fails(wanted),
        }
    }

    /// Nothing, where no word is left.
    pub fn ended(&mut self) -> Option<()>
        ensures { OnSome result (length (ahead self.old) ≡ 0) }
    {
        if self.left() == 0 {
            Some(())
        } else {
            self.fails(Wanted::Nothing)
        }
    }
}
