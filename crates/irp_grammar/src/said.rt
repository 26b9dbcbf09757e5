//! What the lines of a text say, as far as they were read.

ghost use Rattle.std.specs.Prelude.{◌≡◌, ◌≢◌, ◌⊎◌, [], IfSome, OnOk, OnSome};
ghost use Rattle.irp_types.specs.declared.routine.Rule.TheVariants.{Watch};
ghost use Rattle.irp_grammar.specs.Lines.{ahead};
ghost use Rattle.irp_grammar.specs.Naming.{TakesNumber, with_name};
ghost use Rattle.irp_grammar.specs.Reading.{OnlyGives, given_of, members_of, nothing_said};
ghost use Rattle.irp_grammar.specs.Saying.{form_number, have_conditions};

use crate::cursor::{Cursor, WordsFault};
use crate::names::{Name, Names, is_name};
use crate::near::hint;
use crate::step_line::{PlanLine, StepLine};
use crate::wanted::{StepFault, Wanted};
use irp_forms::{ActKind, Part};
use irp_script_reader::{CompletionRoutine, Condition, ScriptRefusal, Section};
use irp_types::{CancelAnswer, DispatchId, Known, Row, Rule};
use std::alloc::{AllocError, Global};

/// How many faults of a text are told at most.
pub const MOST_FAULTS: usize = 10;

/// Where a member of a list stands in the text.
#[derive(Clone, Copy)]
pub struct Place<'a> {
    pub section: Section,
    pub line: usize,
    pub column: usize,
    pub word: Option<&'a str>,
}

/// What the lines of a text say.
#[derive(Drop)]
pub struct Said<'a> {
    pub form: Option<u32>,
    pub seats: Option<u32>,
    pub locks: Option<u32>,
    pub slots: Option<u32>,
    pub completions: Vec<CompletionRoutine>,
    pub cancels: Vec<CancelAnswer>,
    pub dispatches: Vec<PlanLine>,
    pub drivers: Vec<Row<(u8, DispatchId)>>,
    pub setup: Vec<StepLine>,
    pub steps: Vec<StepLine>,
    pub names: Names<'a>,
    /// How many devices its steps create.
    pub devices: u32,
    /// How many completion routines of each rule it has.
    pub counts: Known,
    pub places: Vec<Place<'a>>,
    pub faults: Vec<WordsFault<'a>>,
}

impl<'a> Said<'a> {
    /// Nothing said.
    pub fn new(alloc: Global) -> Said<'a>
        ensures { members_of result ≡ nothing_said }
    {
        Said {
            form: None,
            seats: None,
            locks: None,
            slots: None,
            completions: Vec::new(alloc),
            cancels: Vec::new(alloc),
            dispatches: Vec::new(alloc),
            drivers: Vec::new(alloc),
            setup: Vec::new(alloc),
            steps: Vec::new(alloc),
            names: Names::new(alloc),
            devices: 0,
            counts: Known::NONE,
            places: Vec::new(alloc),
            faults: Vec::new(alloc),
        }
    }

    /// Whether a step of `steps` hangs on anything.
    fn have_conditions(&self) -> bool
        ensures { result ≡ have_conditions self.now.steps.items }
    {
        self.steps.iter().any(|line| line.condition.is_some())
    }

    /// The form: as the text says; else 4 where a step hangs on anything, 2 where it has slots, and 1 where it has
    /// neither.
    pub fn form_number(&self) -> u32
        ensures { result ≡ form_number self.now.form self.now.slots
            (have_conditions self.now.steps.items) }
    {
        match (self.form, self.slots) {
            (Some(form), _) => form,
            (None, _) if self.have_conditions() => 4,
            (None, Some(_)) => 2,
            (None, None) => 1,
        }
    }

    /// Notes that a member of a section begins here; none where memory runs out.
    pub fn place(&mut self, section: Section, words: &Cursor<'a, '_>) -> Option<()>
        ensures { members_of self.new ≡ members_of self.old }
    {
        let place = Place {
            section,
            line: words.line(),
            column: words.column(),
            word: words.peek(),
        };
        self.places.push(place).ok()
    }

    /// Whether the section has a line.
    pub fn is_placed(&self, section: Section) -> bool {
        self.place_of(section, 0).is_some()
    }

    /// The number of such a part that the next word is.
    pub fn number(&self, part: Part, words: &mut Cursor<'_, '_>) -> Option<u64>
        ensures { IfSome result
            (TakesNumber (given_of self.now).names part (ahead words.old) (ahead words.new)) }
    {
        let read = self.names.number(part, words.text());
        words.taken(read, Wanted::Of(part))
    }

    /// The same for a part whose numbers are below 2^32.
    pub fn short(&self, part: Part, words: &mut Cursor<'_, '_>) -> Option<u32>
        ensures { IfSome result
            (TakesNumber (given_of self.now).names part (ahead words.old) (ahead words.new)) }
    {
        let read = self.names.short(part, words.text());
        words.taken(read, Wanted::Of(part))
    }

    /// Gives a name to a number.
    pub fn name(
        &mut self,
        part: Part,
        text: &'a str,
        number: u32,
        words: &mut Cursor<'a, '_>,
    ) -> Option<()>
        ensures given { OnSome result
            (given_of self.new ≡ with_name part Watch text.now number (given_of self.old)) }
        ensures said { OnlyGives self.old self.new }
        ensures words { OnSome result (ahead words.new ≡ ahead words.old) }
    {
        self.name_routine(part, text, Rule::Watch, number, words)
    }

    /// Gives a name to a number, of a completion routine within a rule.
    pub fn name_routine(
        &mut self,
        part: Part,
        text: &'a str,
        rule: Rule,
        number: u32,
        words: &mut Cursor<'a, '_>,
    ) -> Option<()>
        ensures given { OnSome result
            (given_of self.new ≡ with_name part rule text.now number (given_of self.old)) }
        ensures said { OnlyGives self.old self.new }
        ensures words { OnSome result (ahead words.new ≡ ahead words.old) }
    {
        if !is_name(text) {
            return words.fails(Wanted::Name);
        }
        if self.names.has(part, text) {
            return words.fails(Wanted::NewName(part));
        }
        let name = Name {
            part,
            text,
            number,
            rule,
        };
        self.names.give(name).ok()
    }

    /// Notes a fault, and what may be meant.
    pub fn note(&mut self, alloc: Global, fault: WordsFault<'a>) -> Result<(), AllocError>
        ensures { OnOk result (self.new.faults.items ≢ []) }
    {
        let found = match fault.word {
            Some(word) => hint(alloc, word, fault.wanted, &self.names)?,
            None => None,
        };
        let hinted = WordsFault {
            hint: found,
            ..fault
        };
        self.add_fault(hinted)
    }

    /// Puts a fault behind those that are there.
    pub fn add_fault(&mut self, fault: WordsFault<'a>) -> Result<(), AllocError>
        ensures { OnOk result (self.new.faults.items ≢ []) }
    {
        self.faults.push(fault)?;
        Ok(())
    }

    /// Notes the fault that form 1 has slots, where it is said to.
    pub fn note_slots(&mut self) -> Result<(), AllocError>
        ensures { OnOk result ((self.new.faults.items ≢ []) ⊎ (self.new ≡ self.old)) }
    {
        if self.form == Some(1) && self.slots.is_some() {
            let fault = self.fault_at(Section::Slots, 0, Wanted::FormTwo);
            return self.add_fault(fault);
        }
        Ok(())
    }

    /// The fault that the script is refused so.
    pub fn refused(&self, refusal: ScriptRefusal) -> WordsFault<'a> {
        let ScriptRefusal::At { section, index, .. } = refusal else {
            return WordsFault::of_text(Wanted::Script(refusal));
        };
        let wanted = match self.step_fault(section, index) {
            Some(fault) => Wanted::Step(refusal, fault),
            None => Wanted::Script(refusal),
        };
        self.fault_at(section, index, wanted)
    }

    /// The fault that a member of a section isn't what was wanted.
    pub fn fault_at(&self, section: Section, index: usize, wanted: Wanted) -> WordsFault<'a> {
        match self.place_of(section, index) {
            Some(place) => WordsFault {
                line: place.line,
                column: place.column,
                word: place.word,
                wanted,
                hint: None,
            },
            None => WordsFault::of_text(wanted),
        }
    }

    /// Whether the condition of a step of `steps` with this index names one above, which is one of this seat.
    fn names_earlier(&self, index: usize, seat: u32, condition: Condition) -> bool {
        let place = condition.step as usize;
        match self.steps.get(place) {
            Some(step) => place < index && step.seat == seat,
            None => false,
        }
    }

    /// Why the step of a section with this index isn't taken; none where it isn't one that this tells of.
    fn step_fault(&self, section: Section, index: usize) -> Option<StepFault> {
        let line = match section {
            Section::Setup => self.setup.get(index)?,
            Section::Steps => self.steps.get(index)?,
            _ => return None,
        };
        if line.seat >= self.seats.unwrap_or(1) {
            return Some(StepFault::Seat);
        }
        if section == Section::Setup && !line.suits_setup() {
            return Some(StepFault::Setup);
        }
        if let Some(condition) = line.condition {
            if self.form_number() != 4 {
                return Some(StepFault::FormFour);
            }
            if !self.names_earlier(index, line.seat, condition) {
                return Some(StepFault::Condition);
            }
        }
        match line.act {
            _ if self.form_number() == 1 => Some(StepFault::Form),
            ActKind::Hand => Some(StepFault::Hand),
            ActKind::Publish | ActKind::Withdraw => Some(StepFault::Slot),
            _ => None,
        }
    }

    /// The line and the column of the member of a section with this index, both from 1; a column counts bytes. None where
    /// the section has no such member. Source: this project's own rule.
    pub fn line_and_column(&self, section: Section, index: usize) -> Option<(usize, usize)> {
        let place = self.place_of(section, index)?;
        Some((place.line, place.column))
    }

    /// Where the member of a section with this index stands.
    fn place_of(&self, section: Section, index: usize) -> Option<Place<'a>> {
        let mut before = 0usize;
        for place in self.places.iter() {
            if place.section == section {
                if before == index {
                    return Some(*place);
                }
                before = before.saturating_add(1);
            }
        }
        None
    }
}
