//! What is wrong with a script, told to who writes it: line, column, key, what it may be, and a remedy. And what is wrong
//! with a transcript's line. What these texts may be stands in tables, which one search goes through (docs/FORMATS.md).
//! Contracts say where a fault stands, and that it is told in one line; tests/faults and tests/refused_lines have what is
//! told.
#![tactic(auto)]

mod acts;
mod around;
mod fault;
mod fits;
mod header;
mod kinds;
mod line_words;
mod lines;
mod lists;
mod meant;
mod message;
mod near;
mod nodes;
mod not_json;
mod one_line;
mod part;
mod parts;
mod places;
mod putting;
mod reading;
mod script_words;
mod search;
mod seeking;
mod spelling;
mod steps;
mod tokens;
mod top;
mod words;

pub use fault::faults;
pub use lines::{Before, LineFault, line_fault};
pub use message::FaultMessage;
pub use nodes::Node;
pub use places::Place;
pub use putting::{put_place, put_section};
pub use tokens::{Token, tokens_of};
pub use top::key_of;
pub use words::{Finding, Piece, Remedy, Span, there_are};
