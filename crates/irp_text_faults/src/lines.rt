//! What is wrong with a transcript's line.

ghost use Rattle.std.specs.Prelude.{string_bytes};
ghost use Rattle.irp_text_faults.specs.OneLine.{IsOneLine};

use crate::header::look_at_tables;
use crate::line_words::put_misfit;
use crate::nodes::Node;
use crate::part::Part;
use crate::search::{Bounds, Search, Text, What};
use crate::tokens::tokens_of;
use crate::words::Finding;
use std::alloc::{AllocError, Global};

/// What stands before a line.
#[derive(Clone, Copy)]
pub enum Before {
    /// Nothing: it is the first, and has to be a header.
    Nothing,
    /// A header, of form 2 or not, with so many seats.
    Header { two: bool, seats: u32 },
}

/// What is wrong with a line.
#[derive(Drop)]
pub struct LineFault {
    /// Its column, from 1, in bytes.
    pub column: usize,
    /// Which part it is, and what that may be, behind a comma or a colon.
    pub words: String,
    pub ghost one_line: { IsOneLine (string_bytes words) },
}

/// What is settled for a line.
fn bounds_of(before: Before, line: Node) -> Bounds {
    let (two, seats) = match before {
        Before::Nothing => (line.get("form").and_then(Node::number) == Some(2), 0),
        Before::Header { two, seats } => (two, seats),
    };
    Bounds {
        text: Text::Line,
        two,
        seats,
    }
}

/// Looks at a first line.
fn look_at_header<'t>(search: &mut Search<'t>, line: Node<'t>, two: bool) {
    let part = if two { Part::HeaderTwo } else { Part::Header };
    search.look_through(line, part);
    if !search.is_over() {
        look_at_tables(search, line);
    }
}

/// Whether it has one of these keys.
fn has_one_of(line: Node, keys: &[&str]) -> bool {
    for key in keys {
        if line.get(*key).is_some() {
            return true;
        }
    }
    false
}

/// Looks at a line behind the header: at an entry where it has a key that only an entry has, and at a word line where
/// it has one that only a word line has.
fn look_at_line<'t>(search: &mut Search<'t>, line: Node<'t>) {
    if has_one_of(line, &["call", "asked", "n"]) {
        search.look_through(line, Part::Entry);
    } else if has_one_of(line, &["do", "step"]) {
        search.look_through(line, Part::WordLine);
    } else {
        search.fails(line, Part::Any, What::NoLine);
    }
}

/// The first fault of a line behind what stands before it, with its column; 0 and no words where there is none.
fn fault_at(found: &mut Finding, before: Before, line: Node) -> bool {
    let bounds = bounds_of(before, line);
    let mut search = Search::new(found.alloc(), bounds);
    match before {
        Before::Nothing => look_at_header(&mut search, line, bounds.two),
        Before::Header { .. } => look_at_line(&mut search, line),
    }
    if search.ran_out {
        found.run_out();
    }
    match search.misfit {
        Some(misfit) => put_misfit(found, bounds, line, misfit),
        None => {}
    }
    search.is_over()
}

/// What is wrong with a line of JSON behind what stands before it, as docs/FORMATS.md has it: the first part in the order
/// of that page's tables. None where all is as it should be. Whether an entry stands behind a word line, and how many
/// there are, isn't asked.
///
/// # Errors
///
/// Memory runs out.
pub fn line_fault(
    alloc: Global,
    before: Before,
    line: &[u8],
) -> Result<Option<LineFault>, AllocError> {
    let tokens = tokens_of(alloc, line)?;
    let whole = Node {
        text: line,
        tokens: tokens.as_slice(),
        at: 0,
    };
    let mut found = Finding::new(alloc, line);
    if !fault_at(&mut found, before, whole) {
        return Ok(None);
    }
    let column = found.place().column;
    let words = found.finish()?;
    Ok(Some(LineFault { column, words }))
}
