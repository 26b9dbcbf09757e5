//! A text, read line by line.

ghost use Rattle.std.specs.Prelude.{[], ◌<◌, ◌≡◌, ◌≢◌, IfOk, IfSome, IsUtf8, OnOk, OnSome, drop, length, map, min, take};
ghost use Rattle.irp_grammar.specs.Lines.{ahead, lines_of, texts};
ghost use Rattle.irp_grammar.specs.Reading as spec;
ghost use Rattle.irp_grammar.specs.Naming.{with_names};
ghost use Rattle.irp_grammar.specs.Reading.{IsReadFrom, OnlyGives, given_of, members_of};
ghost use Rattle.irp_grammar.specs.Showing.{shown};
ghost use Rattle.irp_script_reader.specs.declared.refusal.Section.TheVariants.{Top};

use crate::cursor::{Cursor, Word, WordsFault};
use crate::lines::{end_of, pieces, words_of};
use crate::members::count_of;
use crate::numbers::begins_with_digit;
use crate::said::{MOST_FAULTS, Said};
use crate::wanted::Wanted;
use irp_forms::Part;
use irp_script_reader::Section;
use std::alloc::{AllocError, Global};

/// The most bytes of a text.
const MOST_BYTES: usize = 1_048_576;

/// The section whose heading a word is.
#[tactic(auto, unfolding(crate::specs::Reading::heading))]
fn heading(text: &str) -> Option<Section>
    ensures { result ≡ spec.heading text.now }
{
    Some(match text {
        "completions" => Section::Completions,
        "cancels" => Section::Cancels,
        "dispatches" => Section::Dispatches,
        "drivers" => Section::Drivers,
        "setup" => Section::Setup,
        "steps" => Section::Steps,
        _ => return None,
    })
}

/// The section of the count that a word names, and the top for the form.
#[tactic(auto, unfolding(crate::specs::Reading::count_named))]
fn count_named(text: &str) -> Option<Section>
    ensures { result ≡ spec.count_named text.now }
{
    match text {
        "form" => Some(Section::Top),
        "seats" => Some(Section::Seats),
        "locks" => Some(Section::Locks),
        "slots" => Some(Section::Slots),
        _ => None,
    }
}

/// The form that a word is.
#[tactic(auto, unfolding(crate::specs::Reading::form_in))]
fn form_in(text: &str) -> Option<u32>
    ensures { result ≡ spec.form_in text.now }
{
    match text {
        "1" => Some(1),
        "2" => Some(2),
        "4" => Some(4),
        _ => None,
    }
}

/// A line that has words, and the section in which it stands.
#[derive(Drop)]
struct Line<'a> {
    section: Section,
    /// Its number, from 1.
    number: usize,
    words: Vec<Word<'a>>,
}

impl<'a> Line<'a> {
    /// Its words, of which none is taken.
    fn cursor(&self) -> Cursor<'a, '_>
        ensures { ahead result ≡ (shown self.now).1 }
    {
        let words = self.words.as_slice();
        Cursor::new(words, self.number, end_of(words))
    }

    /// The section of what stands below it.
    fn below(&self) -> Section
        ensures { result ≡ spec.below self.now.section (texts self.now.words.items) }
    {
        heading(self.cursor().text()).unwrap_or(self.section)
    }

    /// Whether it stands in `steps`.
    fn is_in_steps(&self) -> bool
        ensures { result ≡ spec.of_steps (shown self.now) }
    {
        self.section == Section::Steps
    }
}

/// The lines of a text that have words, each in the section that the last heading above it names.
fn lines_of<'a>(alloc: Global, text: &'a str) -> Result<Vec<Line<'a>>, AllocError>
    ensures { IfOk result (λ lines.
        map shown lines.items ≡ spec.placed Top (lines_of text.now)) }
{
    let pieces = pieces(alloc, text, '\n')?;
    let mut lines = Vec::new(alloc);
    let mut section = Section::Top;
    let mut number = 0usize;
    for piece in pieces.as_slice() {
        number = number.saturating_add(1);
        let words = words_of(alloc, *piece)?;
        if !words.is_empty() {
            let line = Line {
                section,
                number,
                words,
            };
            section = line.below();
            lines.push(line)?;
        }
    }
    Ok(lines)
}

impl<'a> Said<'a> {
    /// Gives as many names as words are left to the numbers from 0 on, and gives their count.
    fn take_names(&mut self, part: Part, words: &mut Cursor<'a, '_>) -> Option<u32>
        ensures count { IfSome result (λ count.
            count ≡ min (length (ahead words.old)) 4294967295) }
        ensures names { IfSome result (λ count. given_of self.new
            ≡ with_names part 0 (take count (ahead words.old)) (given_of self.old)) }
        ensures words { IfSome result (λ count.
            ahead words.new ≡ drop count (ahead words.old)) }
        ensures said { OnlyGives self.old self.new }
    {
        let count = count_of(words.left());
        for number in 0..count {
            self.name(part, words.text(), number, words)?;
            words.pass();
        }
        Some(count)
    }

    /// The count that the rest of a line is: a number, or as many names as there are.
    fn take_count(&mut self, part: Part, words: &mut Cursor<'a, '_>) -> Option<u32>
        ensures count { IfSome result (λ count. spec.TakesCount part (ahead words.old)
            (ahead words.new) count (given_of self.old) (given_of self.new)) }
        ensures said { OnlyGives self.old self.new }
    {
        if words.left() == 0 {
            return words.fails(Wanted::Count);
        }
        if begins_with_digit(words.text()) {
            self.short(Part::Tag, words)
        } else {
            self.take_names(part, words)
        }
    }

    /// The form, or the count, that the rest of a line is.
    fn take_number(&mut self, section: Section, words: &mut Cursor<'a, '_>) -> Option<u32>
        ensures number { IfSome result (λ number. spec.TakesNumberOf section (ahead words.old)
            (ahead words.new) number (given_of self.old) (given_of self.new)) }
        ensures said { OnlyGives self.old self.new }
    {
        match section {
            Section::Seats => self.take_count(Part::Seat, words),
            Section::Locks => self.take_count(Part::Lock, words),
            Section::Slots => self.take_count(Part::Slot, words),
            _ => words.taken(form_in(words.text()), Wanted::Form),
        }
    }

    /// Says that the form, or a count, is this.
    fn set(&mut self, section: Section, number: u32)
        ensures { members_of self.new ≡ spec.with_count section number (members_of self.old) }
    {
        match section {
            Section::Seats => self.seats = Some(number),
            Section::Locks => self.locks = Some(number),
            Section::Slots => self.slots = Some(number),
            _ => self.form = Some(number),
        }
    }

    /// Takes a line above the sections.
    fn take_top(&mut self, words: &mut Cursor<'a, '_>) -> Option<()>
        ensures { OnSome result
            (spec.SaysCount (ahead words.old) (ahead words.new) (members_of self.old)
            (members_of self.new)) }
    {
        let begin = *words;
        let section = words.taken(count_named(words.text()), Wanted::Heading)?;
        if self.is_placed(section) {
            *words = begin;
            return words.fails(Wanted::Once);
        }
        self.place(section, &begin)?;
        let number = self.take_number(section, words)?;
        self.set(section, number);
        Some(())
    }

    /// Takes a line that is no heading, in the section that a heading above began.
    fn take_member(
        &mut self,
        alloc: Global,
        section: Section,
        words: &mut Cursor<'a, '_>,
    ) -> Option<()>
        ensures { OnSome result
            (spec.SaysMember section (ahead words.old) (ahead words.new) (members_of self.old)
            (members_of self.new)) }
    {
        match section {
            Section::Completions => self.take_completion(words),
            Section::Cancels => self.take_cancel(words),
            Section::Dispatches => self.take_dispatch(words),
            Section::Drivers => self.take_driver(alloc, words),
            Section::Setup => self.take_step(Section::Setup, words),
            Section::Steps => self.take_step(Section::Steps, words),
            _ => self.take_top(words),
        }
    }

    /// Takes the heading of a section; or a member of this section, where the line is no heading.
    fn take_behind(
        &mut self,
        alloc: Global,
        headed: Option<Section>,
        section: Section,
        words: &mut Cursor<'a, '_>,
    ) -> Option<()>
        ensures { OnSome result (spec.SaysBehind headed section (ahead words.old) (ahead words.new)
            (members_of self.old) (members_of self.new)) }
    {
        match headed {
            Some(_) => {
                words.pass();
                Some(())
            }
            None => self.take_member(alloc, section, words),
        }
    }

    /// Takes a line whose first word is the heading of this section, or none.
    fn take_words(
        &mut self,
        alloc: Global,
        headed: Option<Section>,
        section: Section,
        words: &mut Cursor<'a, '_>,
    ) -> Option<()>
        ensures { OnSome result (spec.SaysWords headed section (ahead words.old)
            (members_of self.old) (members_of self.new)) }
    {
        self.take_behind(alloc, headed, section, words)?;
        words.ended()
    }

    /// Takes a line. Where it has a fault, it notes that, unless so many are noted.
    fn take(&mut self, alloc: Global, line: &Line<'a>, most: usize) -> Result<(), AllocError>
        requires { 0 < most }
        ensures { OnOk result (spec.IsTaken (shown line.now) (members_of self.old) (members_of self.new)) }
    {
        let mut words = line.cursor();
        let headed = heading(words.text());
        if self
            .take_words(alloc, headed, line.section, &mut words)
            .is_some()
        {
            return Ok(());
        }
        match words.fault() {
            Some(fault) if self.faults.len() < most => self.note(alloc, fault),
            Some(_) => Ok(()),
            None => Err(AllocError),
        }
    }

    /// Takes a line where it stands in `steps`, if those are taken; else where it doesn't.
    fn take_those(
        &mut self,
        alloc: Global,
        line: &Line<'a>,
        in_steps: bool,
        most: usize,
    ) -> Result<(), AllocError>
        requires { 0 < most }
        ensures { OnOk result (spec.IsTakenIf in_steps (shown line.now)
            (members_of self.old) (members_of self.new)) }
    {
        if line.is_in_steps() == in_steps {
            self.take(alloc, line, most)
        } else {
            Ok(())
        }
    }

    /// Takes those of these lines that stand in `steps`, or all others, and notes ten faults of them at most.
    fn take_lines(
        &mut self,
        alloc: Global,
        lines: &[Line<'a>],
        in_steps: bool,
    ) -> Result<(), AllocError>
        ensures { OnOk result (spec.SaySoFar (spec.those in_steps (map shown lines.now))
            (members_of self.old) (members_of self.new)) }
    {
        let most = self.faults.len().saturating_add(MOST_FAULTS);
        for line in lines {
            self.take_those(alloc, line, in_steps, most)?;
        }
        Ok(())
    }

    /// Leaves the first ten faults.
    fn order_faults(&mut self) -> Result<(), AllocError>
        ensures { OnOk result (self.new.faults.items ≡ []
            → members_of self.new ≡ members_of self.old) }
    {
        self.faults
            .sort_by_key(|fault: &WordsFault<'_>| fault.line)?;
        self.faults.truncate(MOST_FAULTS);
        Ok(())
    }
}

/// What is wrong with a text whose lines aren't read.
fn unread<'a>(alloc: Global, wanted: Wanted) -> Result<Said<'a>, AllocError>
    ensures { IfOk result (λ said. said.faults.items ≢ []) }
{
    let mut said = Said::new(alloc);
    said.add_fault(WordsFault::of_text(wanted))?;
    Ok(said)
}

/// What the lines of a text say, and what is wrong with them: those in `steps` after all others, because `setup` runs
/// before `steps`, wherever the two stand.
fn read_text<'a>(alloc: Global, text: &'a str) -> Result<Said<'a>, AllocError>
    ensures { IfOk result (λ said. said.faults.items ≡ [] → IsReadFrom text.now said) }
{
    let mut said = Said::new(alloc);
    let lines = lines_of(alloc, text)?;
    said.take_lines(alloc, lines.as_slice(), false)?;
    said.take_lines(alloc, lines.as_slice(), true)?;
    said.note_slots()?;
    said.order_faults()?;
    Ok(said)
}

/// What the lines of a text say, and what is wrong with them: the first ten faults, in the order of the lines. A name
/// stands for its number below the line that gives it. In `steps`, the names of other sections do so anywhere.
///
/// # Errors
///
/// Memory runs out.
pub fn read_lines<'a>(alloc: Global, bytes: &'a [u8]) -> Result<Said<'a>, AllocError>
    ensures long { (1048576 < length bytes.now) → IfOk result (λ said. said.faults.items ≢ []) }
    ensures utf8 { ¬ (IsUtf8 bytes.now) → IfOk result (λ said. said.faults.items ≢ []) }
    ensures lines { IfOk result (λ said. said.faults.items ≡ [] → IsReadFrom bytes.now said) }
{
    if bytes.len() > MOST_BYTES {
        return unread(alloc, Wanted::Shorter);
    }
    match str::from_utf8(bytes) {
        Ok(text) => read_text(alloc, text),
        Err(_) => unread(alloc, Wanted::Utf8),
    }
}
