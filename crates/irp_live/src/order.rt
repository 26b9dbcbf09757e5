//! What the command line asks for.

use irp_program::{Unasked, words_of};

/// What `--help` prints.
pub const HELP: &str = "\
irp live answers each line of standard input by a line, at once.

Usage: irp live < LINES

LINE                             ANSWER
a transcript's header, first     null
{\"would\":CALL}                   the refusal that the call would get now, or null
{\"look\":[SLOT,USE]}              what a Look would be replied with, or the refusal
an entry                         null if it is legal, or what is wrong with it
{\"end\":true}, or the end         legal N or illegal I, as irpx check tells it

CALL and entries are those of a transcript (docs/FORMATS.md).

Example:
  $ printf '%s\\n' '{\"cancels\":[],\"completions\":[0,0,0,0,0],\"dispatches\":[],\"drivers\":[],\"form\":1,\"locks\":1,\"seats\":1}' \\
      '{\"would\":{\"do\":\"allocate\",\"size\":17}}' | irp live
  null
  \"BadSize\"
  legal 0

Exit status: 0 legal, 1 no header, 2 illegal, 3 no memory, 4 other words, 5 input or output failed.
";

/// What the words ask for.
#[derive(Clone, Copy)]
pub enum Order {
    /// Answer lines.
    Live,
    /// Print the help.
    Help,
    /// Nothing: words that the program doesn't take.
    Other,
    /// Nothing: memory ran out.
    NoMemory,
}

/// What the words ask for.
pub fn words_ask(rt: &HostRuntime) -> Order {
    let words = match words_of(rt) {
        Ok(words) => words,
        Err(Unasked::Usage) => return Order::Other,
        Err(Unasked::NoMemory) => return Order::NoMemory,
    };
    match words.as_slice() {
        [] | [_] => Order::Live,
        [_, word] if word.as_str() == "--help" || word.as_str() == "-h" => Order::Help,
        _ => Order::Other,
    }
}
