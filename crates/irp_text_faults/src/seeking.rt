//! Where a part of a script stands, sought byte by byte.

ghost use Rattle.std.specs.Prelude.{◌≡◌, ◌<◌, ◌≤◌, ◌^◌, ◌+◌, ◌-◌, MatchOption};
ghost use Rattle.irp_text_faults.specs.Reading as spec;
ghost use Rattle.irp_text_faults.specs.InPart as part;

use crate::reading::{Reading, Sought};
use crate::spelling::says;
use crate::tokens::cut;
use crate::top::key_of;
use irp_script_reader::{ScriptRefusal, Section};

/// A value under a key.
const VALUE: Sought = Sought { depth: 1, index: 0 };

/// A byte that opens a list or an object.
fn opens(byte: u8) -> bool
    ensures { result ≡ spec.opens byte }
{
    byte == b'[' || byte == b'{'
}

/// A byte that ends a list or an object.
fn closes(byte: u8) -> bool
    ensures { result ≡ spec.closes byte }
{
    byte == b']' || byte == b'}'
}

/// A byte between values.
fn is_between(byte: u8) -> bool
    ensures { result ≡ spec.is_between byte }
{
    (byte == b' ' || byte == b'\t' || byte == b'\n' || byte == b'\r')
        || (byte == b',' || closes(byte))
}

/// Whether a byte ends a text.
fn ends_text(read: Reading, byte: u8) -> bool
    ensures { result ≡ spec.ends_text read byte }
{
    read.quoted && (!read.escaped && byte == b'"')
}

/// Whether a byte is no part of a text, directly in so many lists and objects.
fn is_mark_at(read: Reading, depth: usize) -> bool
    ensures { result ≡ spec.is_mark_at read depth }
{
    !read.quoted && read.depth == depth
}

/// Whether the next byte stands in a text.
fn quoted_behind(read: Reading, byte: u8) -> bool
    ensures { result ≡ spec.quoted_behind read byte }
{
    if read.quoted {
        !ends_text(read, byte)
    } else {
        byte == b'"'
    }
}

/// How many lists and objects are open behind a byte.
fn depth_behind(read: Reading, byte: u8) -> usize
    requires { read.depth < 2 ^ 64 - 1 }
    ensures is { result ≡ spec.depth_behind read byte }
    ensures few { result ≤ read.depth + 1 }
{
    if read.quoted {
        read.depth
    } else if opens(byte) {
        read.depth + 1
    } else if closes(byte) {
        read.depth.saturating_sub(1)
    } else {
        read.depth
    }
}

/// Whether the last text directly in the script is the key.
fn named_behind(key: &str, text: &[u8], read: Reading, byte: u8) -> bool
    ensures { result ≡ spec.named_behind key.now text.now read byte }
{
    if ends_text(read, byte) && read.depth == 1 {
        says(key.as_bytes(), cut(text, read.word, read.at))
    } else {
        read.named
    }
}

/// Whether a colon stands behind the key.
fn begins_value(read: Reading, byte: u8) -> bool
    ensures { result ≡ spec.begins_value read byte }
{
    is_mark_at(read, 1) && (byte == b':' && read.named)
}

/// Whether the next byte stands in what is under the key.
fn valued_behind(sought: Sought, read: Reading, byte: u8) -> bool
    ensures { result ≡ spec.valued_behind sought read byte }
{
    if is_mark_at(read, 1) {
        if byte == b':' {
            read.named
        } else if byte == b',' || (byte == b'{' && sought.depth == 2) {
            false
        } else {
            read.valued
        }
    } else {
        read.valued
    }
}

/// How many members of the list stand before the next byte.
fn members_behind(read: Reading, byte: u8) -> usize
    requires { read.members < 2 ^ 64 - 1 }
    ensures is { result ≡ spec.members_behind read byte }
    ensures few { result ≤ read.members + 1 }
{
    if begins_value(read, byte) {
        0
    } else if is_mark_at(read, 2) && byte == b',' {
        read.members + 1
    } else {
        read.members
    }
}

/// Whether a byte belongs to what is sought.
fn belongs(sought: Sought, read: Reading, byte: u8) -> bool
    ensures { result ≡ spec.belongs sought read byte }
{
    (read.valued && sought.depth <= read.depth)
        && ((sought.depth == 1 || read.members == sought.index)
            && !(is_mark_at(read, sought.depth) && is_between(byte)))
}

/// Where what is sought begins.
fn start_behind(sought: Sought, read: Reading, byte: u8) -> usize
    ensures { result ≡ spec.start_behind sought read byte }
{
    if belongs(sought, read, byte) && read.end == 0 {
        read.at
    } else {
        read.start
    }
}

/// Where it ends, as far as it is read.
fn end_behind(sought: Sought, read: Reading, byte: u8) -> usize
    requires at { read.at < 2 ^ 64 - 1 }
    requires read { read.end ≤ read.at }
    ensures is { result ≡ spec.end_behind sought read byte }
    ensures few { result ≤ read.at + 1 }
{
    if begins_value(read, byte) {
        0
    } else if belongs(sought, read, byte) {
        read.at + 1
    } else {
        read.end
    }
}

/// Reads a byte.
fn read_on(key: &str, sought: Sought, text: &[u8], read: Reading, byte: u8) -> Reading
    requires at { read.at < 2 ^ 64 - 1 }
    requires sound { spec.IsSound read }
    ensures is { result ≡ spec.read_on key.now sought text.now read byte }
    ensures at { result.at ≡ read.at + 1 }
    ensures sound { spec.IsSound result }
{
    Reading {
        at: read.at + 1,
        depth: depth_behind(read, byte),
        quoted: quoted_behind(read, byte),
        escaped: read.quoted && (!read.escaped && byte == b'\\'),
        word: if read.quoted { read.word } else { read.at + 1 },
        named: named_behind(key, text, read, byte),
        valued: valued_behind(sought, read, byte),
        members: members_behind(read, byte),
        start: start_behind(sought, read, byte),
        end: end_behind(sought, read, byte),
    }
}

/// Reads a text.
pub fn read_through(key: &str, sought: Sought, text: &[u8]) -> Reading
    ensures is { result ≡ spec.read_through key.now sought text.now text.now }
    ensures sound { spec.IsSound result }
{
    let mut read = Reading {
        at: 0,
        depth: 0,
        quoted: false,
        escaped: false,
        word: 0,
        named: false,
        valued: false,
        members: 0,
        start: 0,
        end: 0,
    };
    for byte in text {
        read = read_on(key, sought, text, read, *byte);
    }
    read
}

/// This byte, where it belongs to what is read; else the nearest that does. None where nothing does.
fn moved_into(read: Reading, at: usize) -> Option<usize>
    requires { spec.IsSound read }
    ensures { MatchOption result (read.end ≡ 0) (λ moved. (read.start ≤ moved) × (moved < read.end)) }
{
    let last = read.end.checked_sub(1)?;
    Some(at.max(read.start).min(last))
}

/// A byte of the text, or its end: this one, where it is.
fn in_text(text: &[u8], at: usize) -> usize
    ensures { part.InText text.now result }
{
    at.min(text.len())
}

/// A byte of the value under a key; where there is none, of the text.
fn in_value(key: &str, text: &[u8], at: usize) -> usize
    ensures { part.InValue key.now text.now result }
{
    let read = read_through(key, VALUE, text);
    match moved_into(read, at) {
        Some(moved) => moved,
        None => in_text(text, at),
    }
}

/// A byte of a member of the list under a key; where there is none, of the value.
fn in_member(key: &str, index: usize, text: &[u8], at: usize) -> usize
    ensures { part.InMember key.now index text.now result }
{
    let read = read_through(key, Sought { depth: 2, index }, text);
    match moved_into(read, at) {
        Some(moved) => moved,
        None => in_value(key, text, at),
    }
}

/// A byte of a section.
fn in_section(section: Section, index: usize, text: &[u8], at: usize) -> usize
    ensures { part.InSection section index text.now result }
{
    match section {
        Section::Top => in_text(text, at),
        Section::Seats | Section::Locks | Section::Slots => in_value(key_of(section), text, at),
        _ => in_member(key_of(section), index, text, at),
    }
}

/// A byte of the part of a script that a refusal names: this one, where it is one.
pub fn in_part(refusal: ScriptRefusal, text: &[u8], at: usize) -> usize
    ensures { part.InPart refusal text.now result }
{
    match refusal {
        ScriptRefusal::TooLong => 1_048_576,
        ScriptRefusal::NotJson => in_text(text, at),
        ScriptRefusal::BadForm => in_value("form", text, at),
        ScriptRefusal::At { section, index, .. } => in_section(section, index, text, at),
    }
}
