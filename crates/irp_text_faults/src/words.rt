//! What is said of a fault: words, numbers and pieces of the text.

ghost use Rattle.std.specs.Prelude.{IfOk, string_bytes};
ghost use Rattle.irp_text_faults.specs.OneLine.{IsOneLine};

use crate::nodes::Node;
use crate::one_line::in_one_line;
use crate::part::Key;
use crate::places::{Place, place_of};
use crate::tokens::cut;
use irp_names::Sink;
use irp_script_reader::MemberFault;
use std::alloc::{AllocError, Global};

/// A part of a text, from this byte up to that one, which isn't its own.
#[derive(Clone, Copy)]
pub struct Span {
    pub start: usize,
    pub end: usize,
}

/// A piece of what is said.
#[derive(Clone, Copy)]
pub enum Piece {
    /// These words.
    Say(&'static str),
    /// This word, in quotation marks.
    Quoted(&'static str),
    /// This number.
    Number(u64),
    /// What stands there in the text, or its beginning where that is long.
    Show(Span),
    /// The names of these keys.
    Keys(&'static [Key]),
    /// This character of a key: none that a terminal might obey.
    Letter(char),
}

/// What was meant, or what helps.
#[derive(Clone, Copy)]
pub enum Remedy {
    /// It isn't known.
    Unknown,
    /// This word, in quotation marks.
    Word(&'static str),
    /// This number.
    Number(u64),
    /// This number, which has a name.
    Named(u64, &'static str),
    /// To do this.
    Do(&'static str),
}

/// What is wrong with a text: where, and what is said of it. What looks for faults gives whether there is none, and
/// says here what it finds. Where memory runs out it remembers that: then nothing is said, whatever else is put.
#[derive(Drop)]
pub struct Finding<'t> {
    alloc: Global,
    text: &'t [u8],
    /// Where it stands in the text, counted in bytes.
    at: usize,
    fault: MemberFault,
    words: Sink,
}

impl<'t> Finding<'t> {
    /// Nothing was found in this text yet. It takes no memory.
    pub fn new(alloc: Global, text: &'t [u8]) -> Finding<'t> {
        Finding {
            alloc,
            text,
            at: 0,
            fault: MemberFault::BadField,
            words: Sink::new(alloc),
        }
    }

    /// Where memory comes from.
    pub fn alloc(&self) -> Global {
        self.alloc
    }

    /// Where it stands in the text, counted in bytes.
    pub(crate) fn at(&self) -> usize {
        self.at
    }

    /// Where it stands.
    pub fn place(&self) -> Place {
        place_of(self.text, self.at)
    }

    /// What kind of fault it is.
    pub fn fault(&self) -> MemberFault {
        self.fault
    }

    /// Remembers that memory ran out.
    pub fn run_out(&mut self) {
        self.words.run_out();
    }

    /// Says a piece.
    fn tell(&mut self, piece: Piece) {
        match piece {
            Piece::Say(words) => self.words.put(words),
            Piece::Quoted(word) => self.words.quoted(word),
            Piece::Number(number) => self.words.number(number),
            Piece::Show(span) => {
                put_shown(
                    self.alloc,
                    &mut self.words,
                    cut(self.text, span.start, span.end),
                );
            }
            Piece::Keys(keys) => put_keys(&mut self.words, keys),
            Piece::Letter(letter) => put_letter(&mut self.words, letter),
        }
    }

    /// Says more.
    pub fn say(&mut self, pieces: &[Piece]) {
        for piece in pieces {
            self.tell(*piece);
        }
    }

    /// Says these words.
    pub fn put(&mut self, words: &'static str) {
        self.words.put(words);
    }

    /// This is wrong at a place of the text: its form, where nothing else is said. It is false.
    pub fn wrong_at(&mut self, at: usize, pieces: &[Piece]) -> bool {
        self.at = at;
        self.say(pieces);
        false
    }

    /// This is wrong with a value. It is false.
    pub fn wrong(&mut self, node: Node, pieces: &[Piece]) -> bool {
        self.wrong_at(node.start(), pieces)
    }

    /// A value is told to be another thing than these words say. It is false.
    pub fn not_taken(&mut self, shown: &'static str, node: Node, words: &'static str) -> bool {
        let show = Piece::Show(node.span());
        self.wrong(
            node,
            &[
                Piece::Say(shown),
                Piece::Say(" is "),
                show,
                Piece::Say("; "),
                Piece::Say(words),
            ],
        )
    }

    /// It is a fault of another kind. It is false.
    pub fn of(&mut self, fault: MemberFault) -> bool {
        self.fault = fault;
        false
    }

    /// This helps, or was meant. It is false.
    pub fn remedy(&mut self, remedy: Remedy) -> bool {
        put_remedy(&mut self.words, remedy);
        false
    }

    /// What is said, in one line. The one error is that memory ran out.
    pub fn finish(self) -> Result<String, AllocError>
        ensures { IfOk result (λ words. IsOneLine (string_bytes words)) }
    {
        let alloc = self.alloc;
        let words = self.words.finish()?;
        in_one_line(alloc, words.as_str())
    }
}

/// How many bytes of a value are shown.
const MOST_SHOWN: usize = 40;

/// Whether a byte is the first of a character.
fn begins_character(byte: u8) -> bool {
    byte & 0xC0 != 0x80
}

/// Bytes in one line: a blank for each byte of control, and no more than the beginning of many. The one error is want of
/// memory.
fn shown(alloc: Global, bytes: &[u8]) -> Result<String, AllocError> {
    let mut shown = Vec::new(alloc);
    for (place, byte) in bytes.iter().enumerate() {
        if place >= MOST_SHOWN && begins_character(*byte) {
            shown.extend_from_slice(b"..")?;
            break;
        }
        shown.push(if *byte < b' ' { b' ' } else { *byte })?;
    }
    String::from_utf8_lossy(alloc, shown.as_slice())
}

/// Puts bytes in one line, as `shown` has them.
fn put_shown(alloc: Global, out: &mut Sink, bytes: &[u8]) {
    match shown(alloc, bytes) {
        Ok(words) => out.put(words.as_str()),
        Err(_) => out.run_out(),
    }
}

/// Puts the names of keys, with a comma between them.
fn put_keys(out: &mut Sink, keys: &[Key]) {
    for (place, (name, _)) in keys.iter().enumerate() {
        out.put(if place == 0 { "" } else { ", " });
        out.put(name);
    }
}

/// Puts a character of a key.
fn put_letter(out: &mut Sink, letter: char) {
    match letter {
        '"' => out.put("\\\""),
        '\\' => out.put("\\\\"),
        letter if letter < ' ' || ('\u{7f}' <= letter && letter < '\u{a0}') => out.put("?"),
        letter => out.put(letter.encode_utf8(&mut [0; 4])),
    }
}

/// Puts a remedy behind what is wrong.
fn put_remedy(out: &mut Sink, remedy: Remedy) {
    const MEANT: &str = ". Did you mean ";
    match remedy {
        Remedy::Unknown => {}
        Remedy::Word(word) => {
            out.put(MEANT);
            out.quoted(word);
            out.put("?");
        }
        Remedy::Number(number) => {
            out.put(MEANT);
            out.number(number);
            out.put("?");
        }
        Remedy::Named(number, name) => {
            out.put(MEANT);
            out.number(number);
            out.put(" (");
            out.put(name);
            out.put(")?");
        }
        Remedy::Do(words) => {
            out.put(". ");
            out.put(words);
        }
    }
}

/// What is numbered isn't there under this number: how many there are, and the last number. It is false.
pub fn there_are(
    found: &mut Finding,
    node: Node,
    what: &'static str,
    number: u64,
    count: u64,
) -> bool {
    let words = match count {
        0 => " isn't there; there is none",
        1 => " isn't there; there is one, numbered 0",
        _ => " isn't there; there are ",
    };
    found.wrong(
        node,
        &[
            Piece::Say(what),
            Piece::Say(" "),
            Piece::Number(number),
            Piece::Say(words),
        ],
    );
    if count > 1 {
        let last = count.saturating_sub(1);
        found.say(&[
            Piece::Number(count),
            Piece::Say(", numbered from 0 to "),
            Piece::Number(last),
        ]);
    }
    false
}
