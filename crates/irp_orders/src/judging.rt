//! Whether a condition holds in some order, or some order doesn't end right, and which order shows it.

ghost use Rattle.std.specs.Prelude.{
  ◌≡◌,
  ◌<◌,
  ◌≤◌,
  ◌↔◌,
  IfErr,
  IfOk,
  IfSome,
  IsTrue,
  false,
  decimal,
  length,
  true,
};
ghost use Rattle.std.specs.List.{count_by, flat_map};
ghost use Rattle.std.specs.Option.{IsSomeAnd};
ghost use Rattle.irp_names.specs.Sinks.{Says};
ghost use Rattle.irp_machine.specs.Replays.{StopsShort};
ghost use Rattle.irp_machine.specs.declared.limits.NotMade.TheVariants.{NoStep};
ghost use Rattle.irp_orders.specs.Judging.{
  AreMarks,
  Breaks,
  IsJudged,
  IsShortestBelow,
  IsVerdict,
  steps_at,
  steps_of,
  verdict_ending,
};
ghost use Rattle.irp_orders.specs.Counts.{orders_text};
ghost use Rattle.irp_orders.specs.Rows.{IsSomeStuck, all_orders};
ghost use Rattle.irp_orders.specs.Told as spec;
ghost use Rattle.irp_orders.specs.Told.{IsAnswerOf, IsBrokenText, IsShownIn, IsToldText, PutsShown};

use crate::columns::{Columns, orders_of};
use crate::ending::Ending;
use crate::facts::meets;
use crate::found::Found;
use crate::right::is_right;
use crate::steps::put_in_order;
use crate::such::put_such;
use crate::table::{put_end, put_head};
use crate::text::{put_orders, put_outcomes, tell};
use crate::wrongs::put_wrongs;
use irp_condition::Condition;
use irp_machine::NotMade;
use irp_names::Sink;
use irp_script_reader::{Script, Step};
use irp_types::Entry;
use std::alloc::{AllocError, Global};

/// What is asked of the outcomes of a script's orders.
#[derive(Clone, Copy)]
pub enum Question<'a> {
    /// Whether this condition holds of none.
    Never(&'a Condition),
    /// Whether each is right, behind the setup that these entries tell.
    Right(&'a [Entry]),
}

/// Which outcomes break what is asked of orders, and one of these to be shown.
#[derive(Drop)]
pub struct Judgment {
    /// For each outcome, by its place, whether it does.
    pub marks: Vec<bool>,
    /// The one whose order has the fewest steps; of equally long ones, that with the fewest changes of seat.
    pub shown: Option<usize>,
}

/// How often the seat changes along an order.
fn changes_of(path: &[u32]) -> usize {
    let mut changes = 0usize;
    let mut last = None;
    for seat in path {
        if last != Some(*seat) {
            changes = changes.saturating_add(1);
        }
        last = Some(*seat);
    }
    changes
}

/// Whether the path of an outcome is shorter than another's, or as long with fewer changes of seat.
fn is_shorter(one: &Found, other: &Found) -> bool
    ensures short { result ≡ true → steps_of one.now ≤ steps_of other.now }
    ensures long { result ≡ false → steps_of other.now ≤ steps_of one.now }
{
    let (path, longer) = (&one.outcome.path, &other.outcome.path);
    if path.len() != longer.len() {
        return path.len() < longer.len();
    }
    changes_of(path.as_slice()) < changes_of(longer.as_slice())
}

/// Whether the path of the outcome at a place is shorter than that of the best one so far, or there is none so far.
fn is_better(founds: &[Found], place: usize, best: Option<usize>) -> bool
    requires place { place < length founds.now }
    requires best { IfSome best (λ best. best < length founds.now) }
    ensures better { result ≡ true
        → IfSome best (λ best. steps_at founds.now place ≤ steps_at founds.now best) }
    ensures worse { result ≡ false
        → IsSomeAnd best (λ best. steps_at founds.now best ≤ steps_at founds.now place) }
{
    match best {
        Some(best) => is_shorter(&founds[place], &founds[best]),
        None => true,
    }
}

/// The place of the marked outcome with the shortest path.
fn shortest(founds: &[Found], marks: &[bool]) -> Option<usize>
    requires { length marks.now ≡ length founds.now }
    ensures { IsShortestBelow founds.now marks.now (length founds.now) result }
{
    let mut best: Option<usize> = None;
    for place in 0..founds.len() {
        if marks[place] && is_better(founds, place, best) {
            best = Some(place);
        }
    }
    best
}

/// Whether an outcome breaks what is asked. The one error is want of memory.
fn breaks(
    alloc: Global,
    steps: &[Step],
    question: Question<'_>,
    found: &Found,
) -> Result<bool, AllocError>
    ensures { IfOk result (λ does. IsTrue does ↔ Breaks steps.now question.entry found.now) }
{
    match question {
        Question::Never(condition) => meets(alloc, steps, &found.outcome.end, condition),
        Question::Right(setup) => {
            let is_right = is_right(alloc, steps, setup, &found.outcome.end)?;
            Ok(!is_right)
        }
    }
}

/// For each outcome whether it breaks what is asked. The one error is want of memory.
fn marks_of(
    alloc: Global,
    steps: &[Step],
    founds: &[Found],
    question: Question<'_>,
) -> Result<Vec<bool>, AllocError>
    ensures { IfOk result (λ marks.
        AreMarks (Breaks steps.now question.entry) founds.now marks.items) }
{
    let mut marks = Vec::new(alloc);
    for found in founds {
        let is_broken = breaks(alloc, steps, question, found)?;
        marks.push(is_broken)?;
    }
    Ok(marks)
}

/// Judges the outcomes of a script with these steps by what is asked. The one error is want of memory.
pub fn judged(
    alloc: Global,
    steps: &[Step],
    founds: &[Found],
    question: Question<'_>,
) -> Result<Judgment, AllocError>
    ensures marks { IfOk result (λ judged.
        AreMarks (Breaks steps.now question.entry) founds.now judged.marks.items) }
    ensures verdict { IfOk result (λ judged.
        IsVerdict (Breaks steps.now question.entry) founds.now judged.shown) }
{
    let marks = marks_of(alloc, steps, founds, question)?;
    let shown = shortest(founds, marks.as_slice());
    Ok(Judgment { marks, shown })
}

/// Puts seats, one after another.
fn put_all_seats(out: &mut Sink, path: &[u32])
    ensures { Says (flat_map spec.seat_text path.now) out.old out.new }
{
    for seat in path {
        tell(out, " ", *seat);
    }
}

/// Puts the seats of an order's atomic steps, one after another.
#[tactic(auto, using(irp_names::proofs::Saying::says_both))]
fn put_seats(out: &mut Sink, path: &[u32])
    ensures { Says (spec.seats_line path.now) out.old out.new }
{
    out.put("    the seats of its atomic steps:");
    put_all_seats(out, path);
    out.put("\n");
}

/// How many orders, with those that lead to one more outcome, where it is marked.
fn with_orders(orders: u128, found: &Found, is_marked: bool) -> u128
    ensures { result ≡ spec.with_orders orders found.now is_marked }
{
    if is_marked {
        orders.saturating_add(found.orders)
    } else {
        orders
    }
}

/// How many orders lead to the outcomes that are marked; 2^128 - 1 where there are more.
fn marked_orders(founds: &[Found], marks: &[bool]) -> u128
    requires { length marks.now ≡ length founds.now }
    ensures { result ≡ all_orders 0 (spec.marked founds.now marks.now) }
{
    let mut orders = 0u128;
    for (place, found) in founds.iter().enumerate() {
        orders = with_orders(orders, found, marks[place]);
    }
    orders
}

/// How many outcomes are marked.
fn marked_outcomes(marks: &[bool]) -> usize
    ensures { result ≡ count_by (λ mark. mark) marks.now }
{
    marks.iter().filter(|mark| **mark).count()
}

/// Puts an outcome with each step of its order that was answered, as it was, in the order of the answers.
///
/// # Errors
///
/// `NoStep` where its order can't be made again; `Memory` where memory ran out.
fn put_shown(
    alloc: Global,
    out: &mut Sink,
    columns: &Columns<'_>,
    number: usize,
    found: &Found,
) -> Result<(), NotMade>
    ensures puts { IfOk result (λ done. PutsShown columns.now number found.now out.old out.new) }
    ensures no_step { IfErr result (λ refusal. refusal ≡ NoStep
        → StopsShort columns.now.script.now found.now.outcome.path.items) }
{
    let path = found.outcome.path.as_slice();
    put_head(out, columns.orders, number, found);
    put_in_order(alloc, out, columns, path)?;
    put_end(out, columns, &found.outcome.end);
    put_seats(out, path);
    Ok(())
}

/// The words before the counts where no outcome breaks what is asked.
fn kept_words(question: Question<'_>) -> &'static str
    ensures { result.now ≡ spec.kept_words question.entry }
{
    match question {
        Question::Never(_) => "never: it holds in none of ",
        Question::Right(_) => "right: ",
    }
}

/// Puts these words.
fn put_kept_words(out: &mut Sink, question: Question<'_>)
    ensures { Says (spec.kept_words question.entry) out.old out.new }
{
    out.put(kept_words(question));
}

/// Puts how many orders lead to outcomes.
fn put_orders_of(out: &mut Sink, founds: &[Found])
    ensures { Says (orders_text (all_orders 0 founds.now)) out.old out.new }
{
    put_orders(out, orders_of(founds));
}

/// Puts the line that tells that no outcome breaks what is asked.
fn put_kept(out: &mut Sink, founds: &[Found], question: Question<'_>)
    ensures { Says (spec.kept_line question.entry founds.now) out.old out.new }
{
    put_kept_words(out, question);
    put_orders_of(out, founds);
    out.put(", ");
    put_outcomes(out, founds.len());
    out.put("\n");
}

/// What is told where no outcome breaks what is asked. The one error is want of memory.
fn told_kept(alloc: Global, founds: &[Found], question: Question<'_>) -> Result<Vec<u8>, AllocError>
    ensures { IfOk result (λ text. text.items ≡ spec.kept_line question.entry founds.now) }
{
    let mut out = Sink::new(alloc);
    put_kept(&mut out, founds, question);
    Ok(out.finish()?.into_bytes())
}

/// The words before the counts where some outcome breaks what is asked.
fn broken_words(question: Question<'_>) -> &'static str
    ensures { result.now ≡ spec.broken_words question.entry }
{
    match question {
        Question::Never(_) => "it holds in ",
        Question::Right(_) => "not right in ",
    }
}

/// Puts these words.
fn put_broken_words(out: &mut Sink, question: Question<'_>)
    ensures { Says (spec.broken_words question.entry) out.old out.new }
{
    out.put(broken_words(question));
}

/// Puts how many orders lead to the outcomes that are marked.
fn put_marked_orders(out: &mut Sink, founds: &[Found], marks: &[bool])
    requires { length marks.now ≡ length founds.now }
    ensures { Says (decimal (all_orders 0 (spec.marked founds.now marks.now))) out.old out.new }
{
    out.show(marked_orders(founds, marks));
}

/// Puts how many outcomes are marked.
fn put_marked_outcomes(out: &mut Sink, marks: &[bool])
    ensures { Says (decimal (count_by (λ mark. mark) marks.now)) out.old out.new }
{
    out.show(marked_outcomes(marks));
}

/// Puts how many outcomes break what is asked, and how many orders lead to these.
fn put_counts(out: &mut Sink, founds: &[Found], question: Question<'_>, marks: &[bool])
    requires { length marks.now ≡ length founds.now }
    ensures { Says (spec.broken_line question.entry founds.now marks.now) out.old out.new }
{
    put_broken_words(out, question);
    put_marked_orders(out, founds, marks);
    out.put(" of ");
    put_orders_of(out, founds);
    out.put(", ");
    put_marked_outcomes(out, marks);
    out.put(" of ");
    put_outcomes(out, founds.len());
    out.put("; one of them:");
    out.put("\n");
}

/// These lines, with those of the outcome at a place, which shows that what is asked is broken, and why.
///
/// # Errors
///
/// `NoStep` where its order can't be made again; `Memory` where memory ran out.
fn with_shown(
    alloc: Global,
    mut out: Sink,
    columns: &Columns<'_>,
    question: Question<'_>,
    place: usize,
    found: &Found,
) -> Result<Vec<u8>, NotMade>
    ensures shown { IfOk result (λ text.
        IsShownIn columns.now question.entry place found.now out text.items) }
    ensures no_step { IfErr result (λ refusal. refusal ≡ NoStep
        → StopsShort columns.now.script.now found.now.outcome.path.items) }
{
    put_shown(alloc, &mut out, columns, place.saturating_add(1), found)?;
    match question {
        Question::Never(_) => Ok(out.finish()?.into_bytes()),
        Question::Right(setup) => {
            put_wrongs(&mut out, columns, setup, found);
            let mut text = out.finish()?.into_bytes();
            put_such(alloc, &mut text, columns.script, &found.outcome.end)?;
            Ok(text)
        }
    }
}

/// What is told where the outcome at a place shows that what is asked is broken.
///
/// # Errors
///
/// Those of `with_shown`.
fn told_broken(
    alloc: Global,
    columns: &Columns<'_>,
    founds: &[Found],
    question: Question<'_>,
    marks: &[bool],
    place: usize,
) -> Result<Vec<u8>, NotMade>
    requires place { place < length founds.now }
    requires marks { length marks.now ≡ length founds.now }
    ensures text { IfOk result (λ text.
        IsBrokenText columns.now founds.now question.entry marks.now place text.items) }
    ensures no_step { IfErr result (λ refusal. refusal ≡ NoStep
        → IsSomeStuck columns.now.script.now founds.now) }
{
    let mut out = Sink::new(alloc);
    put_counts(&mut out, founds, question, marks);
    with_shown(alloc, out, columns, question, place, &founds[place])
}

/// What is told of what was judged, and how the program ends then.
///
/// # Errors
///
/// `NoStep` where the order that is shown can't be made again; `Memory` where memory ran out.
fn told(
    alloc: Global,
    columns: &Columns<'_>,
    founds: &[Found],
    question: Question<'_>,
    judged: &Judgment,
) -> Result<(Vec<u8>, Ending), NotMade>
    requires marks { length judged.now.marks.items ≡ length founds.now }
    requires shown { IfSome judged.now.shown (λ place. place < length founds.now) }
    ensures ends { IfOk result (λ told. told.1 ≡ verdict_ending judged.now.shown) }
    ensures text { IfOk result (λ told. IsToldText columns.now founds.now question.entry
        judged.now.marks.items judged.now.shown told.0.items) }
    ensures no_step { IfErr result (λ refusal. refusal ≡ NoStep
        → IsSomeStuck columns.now.script.now founds.now) }
{
    match judged.shown {
        None => Ok((told_kept(alloc, founds, question)?, Ending::Done)),
        Some(place) => {
            let marks = judged.marks.as_slice();
            let text = told_broken(alloc, columns, founds, question, marks, place)?;
            Ok((text, Ending::Broken))
        }
    }
}

/// What is told of the outcomes of a script's orders by what is asked of them, and how the program ends then.
///
/// # Errors
///
/// `NoStep` where the order that is shown can't be made again; `Memory` where memory ran out.
#[tactic(auto, using(crate::proofs::Showing::stuck_of))]
pub fn answered(
    alloc: Global,
    script: &Script,
    founds: &[Found],
    question: Question<'_>,
) -> Result<(Vec<u8>, Ending), NotMade>
    ensures judged { IfOk result (λ told.
        IsJudged (Breaks script.now.steps question.entry) founds.now told.1) }
    ensures text { IfOk result (λ told.
        IsAnswerOf script.now question.entry founds.now told.0.items told.1) }
    ensures no_step { IfErr result (λ refusal. refusal ≡ NoStep
        → IsSomeStuck script.now founds.now) }
{
    let judged = judged(alloc, script.parts().steps.as_slice(), founds, question)?;
    let columns = Columns::of(alloc, script, founds)?;
    let told = told(alloc, &columns, founds, question, &judged)?;
    Ok(told)
}
