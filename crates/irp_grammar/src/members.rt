//! Completion routines, cancel routines, dispatches and drivers, each by its line.

ghost use Rattle.std.specs.Prelude.{[], ◌∷◌, ◌++◌, ◌≡◌, IfSome, OnSome, min, option_map};
ghost use Rattle.irp_types.specs.Rules.{count_of_rule};
ghost use Rattle.irp_types.specs.declared.routine.Rule.TheVariants.{Watch};
ghost use Rattle.irp_forms.specs.declared.key_parts.Part.TheVariants.{Routine};
ghost use Rattle.irp_grammar.specs.Lines.{ahead, next_of};
ghost use Rattle.irp_grammar.specs.Naming.{IsNameIn, TakesName, behind, with_name_if, with_routine};
ghost use Rattle.irp_grammar.specs.Reading as spec;
ghost use Rattle.irp_grammar.specs.Reading.{OnlyGives, given_of, members_of};
ghost use Rattle.irp_grammar.specs.Routines as routines;

use crate::cursor::Cursor;
use crate::said::Said;
use crate::step_line::PlanLine;
use crate::wanted::Wanted;
use irp_forms::{Part, named};
use irp_names::PlanKind;
use irp_script_reader::{Behaviour, CompletionRoutine, Section};
use irp_types::{CancelAnswer, DispatchId, Known, Replacement, Row, Rule, Status};
use std::alloc::Global;

/// The status and the information that the next words are.
fn take_replacement(said: &Said<'_>, words: &mut Cursor<'_, '_>) -> Option<Replacement>
    ensures { IfSome result (routines.TakesReplacement (given_of said.now).names (ahead words.old)
        (ahead words.new)) }
{
    let status = Status(said.short(Part::Status, words)?);
    let information = said.number(Part::Information, words)?;
    Some(Replacement {
        status,
        information,
    })
}

/// The behaviour that the next words are.
fn take_behaviour(said: &Said<'_>, words: &mut Cursor<'_, '_>) -> Option<Behaviour>
    ensures { IfSome result (routines.TakesBehaviour (given_of said.now).names (ahead words.old)
        (ahead words.new)) }
{
    if words.takes("continue") {
        return Some(Behaviour::Continue);
    }
    if words.takes("keep") {
        return Some(Behaviour::Keep);
    }
    if !words.takes("replace") {
        return words.fails(Wanted::Behaviour);
    }
    Some(Behaviour::Replace(take_replacement(said, words)?))
}

/// The behaviours that a rule has where none are written: the only ones that it may have.
fn only_behaviours(rule: Rule) -> Option<(Behaviour, Behaviour)>
    ensures { result ≡ routines.only_behaviours rule }
{
    match rule {
        Rule::Watch => Some((Behaviour::Continue, Behaviour::Continue)),
        Rule::Keeper => Some((Behaviour::Keep, Behaviour::Keep)),
        Rule::KeepOnError => Some((Behaviour::Continue, Behaviour::Keep)),
        Rule::Change | Rule::Free => None,
    }
}

/// The two behaviours that the next words are.
fn take_both(said: &Said<'_>, words: &mut Cursor<'_, '_>) -> Option<(Behaviour, Behaviour)>
    ensures { IfSome result (λ both. routines.TakesBoth (given_of said.now).names (ahead words.old)
        (ahead words.new) both.0 both.1) }
{
    let on_ok = take_behaviour(said, words)?;
    let on_err = take_behaviour(said, words)?;
    Some((on_ok, on_err))
}

/// The behaviours that the next words are; where no word is left, the only ones that the rule may have.
fn take_behaviours(
    said: &Said<'_>,
    rule: Rule,
    words: &mut Cursor<'_, '_>,
) -> Option<(Behaviour, Behaviour)>
    ensures { IfSome result (λ both. routines.TakesBehaviours (given_of said.now).names rule
        (ahead words.old) (ahead words.new) both.0 both.1) }
{
    match only_behaviours(rule) {
        Some(both) if words.left() == 0 => Some(both),
        _ => take_both(said, words),
    }
}

/// The entry of a driver's table that the next words are.
fn take_entry(said: &Said<'_>, words: &mut Cursor<'_, '_>) -> Option<(u8, DispatchId)>
    ensures { IfSome result (λ entry. routines.TakesEntry (given_of said.now).names (ahead words.old)
        (ahead words.new) entry) }
{
    let Ok(major) = u8::try_from(said.number(Part::Major, words)?) else {
        return None;
    };
    let dispatch = DispatchId(said.short(Part::Dispatch, words)?);
    Some((major, dispatch))
}

/// Puts the entries of a driver's table, which the rest of the line is, behind those that are there.
fn take_entries(
    table: &mut Vec<(u8, DispatchId)>,
    said: &Said<'_>,
    words: &mut Cursor<'_, '_>,
) -> Option<()>
    ensures { OnSome result (routines.TakesMore (given_of said.now).names (ahead words.old)
        (ahead words.new) table.old.items table.new.items) }
{
    for _taken in 0..words.left() {
        let entry = take_entry(said, words)?;
        table.push(entry).ok()?;
        if words.left() == 0 {
            return Some(());
        }
    }
    words.fails(Wanted::Of(Part::Major))
}

/// The name before a colon, where a word is one.
fn name_in(word: &str) -> Option<&str>
    ensures { IsNameIn word.now (option_map (λ name. name.now) result) }
{
    word.strip_suffix(':')
}

/// The name before a colon, with which a line may begin.
fn name_before<'a>(words: &Cursor<'a, '_>) -> Option<&'a str>
    ensures { IsNameIn (next_of (ahead words.now)) (option_map (λ name. name.now) result) }
{
    name_in(words.text())
}

/// Passes over a name before a colon, which is given, where the line begins with one.
fn pass_name<'a>(words: &mut Cursor<'a, '_>) -> Option<&'a str>
    ensures name { IsNameIn (next_of (ahead words.old)) (option_map (λ name. name.now) result) }
    ensures words { ahead words.new
        ≡ behind (option_map (λ name. name.now) result) (ahead words.old) }
{
    match name_before(words) {
        Some(name) => {
            words.pass();
            Some(name)
        }
        None => None,
    }
}

/// Puts one more behind those that are there; none where memory runs out.
pub fn add<T: Drop>(list: &mut Vec<T>, one: T) -> Option<()>
    ensures { OnSome result (list.new.items ≡ list.old.items ++ one ∷ []) }
{
    match list.push(one) {
        Ok(()) => Some(()),
        Err(_) => None,
    }
}

/// The counts with one more completion routine of a rule.
pub fn with_one(known: Known, rule: Rule) -> Known
    ensures { result ≡ with_routine rule known }
{
    let count = known.count_of(rule).saturating_add(1);
    match rule {
        Rule::Watch => Known {
            watch: count,
            ..known
        },
        Rule::Change => Known {
            change: count,
            ..known
        },
        Rule::Keeper => Known {
            keeper: count,
            ..known
        },
        Rule::KeepOnError => Known {
            keep_on_error: count,
            ..known
        },
        Rule::Free => Known {
            free: count,
            ..known
        },
    }
}

/// How many there are, as a number below 2^32.
pub fn count_of(length: usize) -> u32
    ensures { result ≡ min length 4294967295 }
{
    match u32::try_from(length) {
        Ok(count) => count,
        Err(_) => u32::MAX,
    }
}

impl<'a> Said<'a> {
    /// Gives the name before a colon, if the line begins with one, to this number.
    pub fn take_name(&mut self, part: Part, number: usize, words: &mut Cursor<'a, '_>) -> Option<()>
        ensures given { OnSome result (TakesName part Watch (min number 4294967295) (ahead words.old)
            (ahead words.new) (given_of self.old) (given_of self.new)) }
        ensures said { OnlyGives self.old self.new }
    {
        match name_before(words) {
            Some(text) => {
                self.name(part, text, count_of(number), words)?;
                words.pass();
                Some(())
            }
            None => Some(()),
        }
    }

    /// Gives the name, if there is one, to the next completion routine of a rule; `begin` are the words from the name on.
    fn name_rule(
        &mut self,
        name: Option<&'a str>,
        rule: Rule,
        begin: &mut Cursor<'a, '_>,
    ) -> Option<()>
        ensures given { OnSome result (given_of self.new ≡ with_name_if Routine rule
            (option_map (λ text. text.now) name.entry) (count_of_rule self.old.counts rule)
            (given_of self.old)) }
        ensures said { OnlyGives self.old self.new }
    {
        match name {
            Some(text) => {
                let number = self.counts.count_of(rule);
                self.name_routine(Part::Routine, text, rule, number, begin)
            }
            None => Some(()),
        }
    }

    /// The rule that the next word is; it counts one more completion routine, whose name stands before it where it has
    /// one.
    fn take_rule(&mut self, words: &mut Cursor<'a, '_>) -> Option<Rule>
        ensures rule { IfSome result (λ rule. spec.TakesRule (ahead words.old) (ahead words.new) rule
            (given_of self.old) (given_of self.new)) }
        ensures said { OnlyGives self.old self.new }
    {
        let mut begin = *words;
        let name = pass_name(words);
        let rule = words.taken(named::<Rule>(words.text()), Wanted::Rule)?;
        match self.name_rule(name, rule, &mut begin) {
            Some(()) => {
                self.counts = with_one(self.counts, rule);
                Some(rule)
            }
            None => {
                *words = begin;
                None
            }
        }
    }

    /// Takes the line of a completion routine.
    pub fn take_completion(&mut self, words: &mut Cursor<'a, '_>) -> Option<()>
        ensures { OnSome result
            (spec.SaysCompletion (ahead words.old) (ahead words.new) (members_of self.old)
            (members_of self.new)) }
    {
        self.place(Section::Completions, words)?;
        let rule = self.take_rule(words)?;
        let (on_ok, on_err) = take_behaviours(self, rule, words)?;
        let routine = CompletionRoutine {
            rule,
            on_ok,
            on_err,
        };
        add(&mut self.completions, routine)
    }

    /// Takes the line of a cancel routine.
    pub fn take_cancel(&mut self, words: &mut Cursor<'a, '_>) -> Option<()>
        ensures { OnSome result
            (spec.SaysCancel (ahead words.old) (ahead words.new) (members_of self.old)
            (members_of self.new)) }
    {
        self.place(Section::Cancels, words)?;
        let number = self.cancels.len();
        self.take_name(Part::Cancel, number, words)?;
        let answer = take_answer(self, words)?;
        add(&mut self.cancels, answer)
    }

    /// Takes the line of a dispatch.
    pub fn take_dispatch(&mut self, words: &mut Cursor<'a, '_>) -> Option<()>
        ensures { OnSome result
            (spec.SaysDispatch (ahead words.old) (ahead words.new) (members_of self.old)
            (members_of self.new)) }
    {
        self.place(Section::Dispatches, words)?;
        let number = self.dispatches.len();
        self.take_name(Part::Dispatch, number, words)?;
        let kind = words.taken(PlanKind::named(words.text()), Wanted::Plan)?;
        let values = self.take_parts(kind.parts(), words)?;
        add(&mut self.dispatches, PlanLine { kind, values })
    }

    /// The table of a driver that the rest of the line is.
    fn take_table(&self, alloc: Global, words: &mut Cursor<'a, '_>) -> Option<Row<(u8, DispatchId)>>
        ensures { IfSome result (λ table. routines.TakesTable (given_of self.now).names
            (ahead words.old) (ahead words.new) table) }
    {
        let mut table = Vec::new(alloc);
        if words.takes("nothing") {
            return Some(Row::from_vec(table));
        }
        take_entries(&mut table, self, words)?;
        Some(Row::from_vec(table))
    }

    /// Takes the line of a driver.
    pub fn take_driver(&mut self, alloc: Global, words: &mut Cursor<'a, '_>) -> Option<()>
        ensures { OnSome result (spec.SaysDriver (ahead words.old) (ahead words.new)
            (members_of self.old) (members_of self.new)) }
    {
        self.place(Section::Drivers, words)?;
        let number = self.drivers.len();
        self.take_name(Part::Driver, number, words)?;
        let table = self.take_table(alloc, words)?;
        add(&mut self.drivers, table)
    }
}

/// The answer of a cancel routine that the next words are.
fn take_answer(said: &Said<'_>, words: &mut Cursor<'_, '_>) -> Option<CancelAnswer>
    ensures { IfSome result (routines.TakesCancel (given_of said.now).names (ahead words.old)
        (ahead words.new)) }
{
    if words.takes("leave") {
        return Some(CancelAnswer::Leave);
    }
    if !words.takes("finish") {
        return words.fails(Wanted::CancelAnswer);
    }
    let information = said.number(Part::Information, words)?;
    Some(CancelAnswer::Finish { information })
}
