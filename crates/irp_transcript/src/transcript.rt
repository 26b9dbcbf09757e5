//! What is recorded of a shared manager. Source: this project's own rules.

ghost use Rattle.std.specs.Prelude.{◌≡◌, Some};
ghost use Rattle.std.specs.Option.{option_copied};
ghost use Rattle.irp_transcript.specs.Headers.{IsHeader};
ghost use Rattle.irp_transcript.specs.Transcripts.{IsTranscript, no_lines};

use crate::header::Header;
use crate::word_line::WordLine;
use irp_types::{Entry, Row};
use std::alloc::Global;
use std::marker::Model;

/// A header, the history that was made with it, and the steps on remove locks. The header is one that the formats
/// accept, and there is one unless there are neither entries nor word lines.
///
/// Contracts see it as the record `TranscriptValue`, with the header, the entries and the word lines.
#[derive(Drop)]
pub struct Transcript {
    header: Option<Header>,
    entries: Row<Entry>,
    words: Row<WordLine>,
}

impl Model for Transcript {
    ghost use Rattle.irp_transcript.specs.Transcripts.{TranscriptValue, IsTranscript};

    ghost Value = { TranscriptValue };

    ghost view = { λ own. record {
      header = own.header;
      entries = own.entries;
      words = own.words;
    } };

    ghost invariant = { λ own. IsTranscript (record {
      header = own.header;
      entries = own.entries;
      words = own.words;
    }) };
}

/// A transcript's header, its entries and its word lines, apart.
#[derive(Drop)]
pub struct TranscriptParts {
    /// What the transcript was made with.
    pub header: Option<Header>,
    /// The entries, in order.
    pub entries: Row<Entry>,
    /// The word lines, in order.
    pub words: Row<WordLine>,
}

impl Transcript {
    /// The transcript with no header and no lines. It takes no memory.
    pub fn empty(alloc: Global) -> Transcript
        ensures { result ≡ no_lines }
    {
        Transcript {
            header: None,
            entries: Row::from_vec(Vec::new(alloc)),
            words: Row::from_vec(Vec::new(alloc)),
        }
    }

    /// The transcript of these, on condition that the formats accept the header. It takes no memory.
    pub fn new(header: Header, entries: Row<Entry>, words: Row<WordLine>) -> Transcript
        requires { IsHeader header }
        ensures { result ≡ record { header = Some header; entries = entries; words = words } }
    {
        Transcript {
            header: Some(header),
            entries,
            words,
        }
    }

    /// Tells that the formats accept the header, and that there is one unless there are neither entries nor word lines.
    /// It changes nothing and answers nothing.
    pub fn is_one(&self)
        ensures { IsTranscript self.now }
    {
        let _ = &self.header;
    }

    /// What it was made with. None where it has no lines.
    pub fn header(&self) -> Option<&Header>
        ensures { option_copied result ≡ self.now.header }
    {
        self.header.as_ref()
    }

    /// The entries, in order.
    pub fn entries(&self) -> &[Entry]
        ensures { result.now ≡ self.now.entries }
    {
        self.entries.as_slice()
    }

    /// The word lines, in order.
    pub fn words(&self) -> &[WordLine]
        ensures { result.now ≡ self.now.words }
    {
        self.words.as_slice()
    }

    /// Gives them apart. It takes no memory.
    pub fn into_parts(self) -> TranscriptParts
        ensures { self ≡ record {
          header = result.header;
          entries = result.entries;
          words = result.words;
        } }
    {
        TranscriptParts {
            header: self.header,
            entries: self.entries,
            words: self.words,
        }
    }
}
