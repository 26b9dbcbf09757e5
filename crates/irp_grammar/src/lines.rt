//! The lines of a text, and the words of a line.

ghost use Rattle.std.specs.Prelude.{◌≡◌, ◌<◌, ◌++◌, IfOk, map};
ghost use Rattle.irp_grammar.specs.Lines as spec;

use crate::cursor::Word;
use std::alloc::{AllocError, Global};

/// The pieces of a text between characters that are this one.
pub fn pieces<'a>(alloc: Global, text: &'a str, at: char) -> Result<Vec<&'a str>, AllocError>
    requires { at < 128 }
    ensures { IfOk result (λ pieces.
        map (λ piece. piece.now) pieces.items ≡ spec.pieces at text.now) }
{
    text.split(at).collect(alloc)
}

/// Puts a word behind those that are there, where it isn't empty.
fn put_word<'a>(words: &mut Vec<Word<'a>>, text: &'a str, column: usize) -> Result<(), AllocError>
    ensures { IfOk result (λ _.
        spec.texts words.new.items ≡ spec.texts words.old.items ++ spec.if_some text.now) }
{
    if !text.is_empty() {
        words.push(Word { text, column })?;
    }
    Ok(())
}

/// The column behind a piece that begins at this one, and behind what parts it from the next.
fn behind(column: usize, piece: &str) -> usize {
    column.saturating_add(piece.len()).saturating_add(1)
}

/// Puts the words of a piece that has neither blanks nor tabs.
fn put_between_returns<'a>(
    alloc: Global,
    words: &mut Vec<Word<'a>>,
    text: &'a str,
    column: usize,
) -> Result<(), AllocError>
    ensures { IfOk result (λ _.
        spec.texts words.new.items ≡ spec.texts words.old.items ++ spec.between_returns text.now) }
{
    let pieces = pieces(alloc, text, '\r')?;
    let mut column = column;
    for piece in pieces.as_slice() {
        put_word(words, *piece, column)?;
        column = behind(column, *piece);
    }
    Ok(())
}

/// Puts the words of a piece that has no blanks.
fn put_between_tabs<'a>(
    alloc: Global,
    words: &mut Vec<Word<'a>>,
    text: &'a str,
    column: usize,
) -> Result<(), AllocError>
    ensures { IfOk result (λ _.
        spec.texts words.new.items ≡ spec.texts words.old.items ++ spec.between_tabs text.now) }
{
    let pieces = pieces(alloc, text, '\t')?;
    let mut column = column;
    for piece in pieces.as_slice() {
        put_between_returns(alloc, words, *piece, column)?;
        column = behind(column, *piece);
    }
    Ok(())
}

/// Puts the words of what stands before a comment.
fn put_between_blanks<'a>(
    alloc: Global,
    words: &mut Vec<Word<'a>>,
    text: &'a str,
) -> Result<(), AllocError>
    ensures { IfOk result (λ _.
        spec.texts words.new.items ≡ spec.texts words.old.items ++ spec.between_blanks text.now) }
{
    let pieces = pieces(alloc, text, ' ')?;
    let mut column = 1usize;
    for piece in pieces.as_slice() {
        put_between_tabs(alloc, words, *piece, column)?;
        column = behind(column, *piece);
    }
    Ok(())
}

/// What of a line stands before a comment.
fn before_comment(line: &str) -> &str
    ensures { result.now ≡ spec.before_comment line.now }
{
    match line.split_once('#') {
        Some((said, _)) => said,
        None => line,
    }
}

/// The words of a line.
pub fn words_of<'a>(alloc: Global, line: &'a str) -> Result<Vec<Word<'a>>, AllocError>
    ensures { IfOk result (λ words. spec.texts words.items ≡ spec.words_of line.now) }
{
    let mut words = Vec::new(alloc);
    put_between_blanks(alloc, &mut words, before_comment(line))?;
    Ok(words)
}

/// The column behind the last word of a line.
pub fn end_of(words: &[Word<'_>]) -> usize {
    match words.last() {
        Some(word) => word.column.saturating_add(word.text.len()),
        None => 1,
    }
}
