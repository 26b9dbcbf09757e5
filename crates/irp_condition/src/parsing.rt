//! Reading a condition from its text. Source: this project's own rules.

ghost use Rattle.std.specs.Prelude.{◌≡◌, ◌<◌, IfOk, MatchResult, length};
ghost use Rattle.irp_condition.specs.declared.fault.ConditionFault.{ConditionFault};
ghost use Rattle.irp_condition.specs.Faults.{Gives, IfFault, found, missing};
ghost use Rattle.irp_condition.specs.Formulas.{Formula, formula_of, joins, no};
ghost use Rattle.irp_condition.specs.Grammar.{TextBreaks, TextSays, inside, joined, single};
ghost use Rattle.irp_condition.specs.Parsing.{Reads};

use crate::condition::Condition;
use crate::fault::{Expected, Unread};
use crate::naming::{Joint, word_of};
use crate::reading::{Reader, behind_close, behind_open, behind_word, compared_at, fault_at};
use crate::scope::Scope;
use crate::tokens::{Token, tokens_of};
use std::alloc::Global;

/// So many parentheses and nots may stand within each other.
const MOST_DEPTH: u32 = 32;

/// The condition that another doesn't hold.
fn not(alloc: Global, inner: Condition) -> Result<Condition, Unread>
    ensures { MatchResult result (λ made. formula_of made ≡ no (formula_of inner))
        (λ unread. unread ≡ Unread.NoMemory) }
{
    Ok(Condition::Not(Box::new(alloc, inner)?))
}

/// Two conditions, joined.
fn join(alloc: Global, joint: Joint, left: Condition, right: Condition) -> Result<Condition, Unread>
    ensures { MatchResult result
        (λ made. formula_of made ≡ joins joint (formula_of left) (formula_of right))
        (λ unread. unread ≡ Unread.NoMemory) }
{
    let left = Box::new(alloc, left)?;
    let right = Box::new(alloc, right)?;
    Ok(match joint {
        Joint::And => Condition::And(left, right),
        Joint::Or => Condition::Or(left, right),
    })
}

/// A condition that nothing joins to another: a comparison, `not` and such a condition, or one in parentheses. So many
/// more may stand within each other.
#[cycle(conditions)]
fn single_at<'a>(
    alloc: Global,
    reader: Reader<'_>,
    tokens: &'a [Token],
    depth: u32,
) -> Result<(Condition, &'a [Token]), Unread>
    ensures reads { Reads reader.entry single depth tokens.now result }
    ensures shorter { IfOk result (λ read. length read.1.now < length tokens.now) }
{
    if let Some(inner) = behind_word("not", tokens) {
        if depth == 0 {
            return Err(fault_at(reader, tokens, Expected::Shallower));
        }
        let (condition, rest) = single_at(alloc, reader, inner, depth - 1)?;
        return Ok((not(alloc, condition)?, rest));
    }
    let Some(inner) = behind_open(tokens) else {
        return compared_at(reader, tokens);
    };
    if depth == 0 {
        return Err(fault_at(reader, tokens, Expected::Shallower));
    }
    let (condition, behind) = joined_at(alloc, reader, Joint::Or, inner, depth - 1)?;
    match behind_close(behind) {
        Some(rest) => Ok((condition, rest)),
        None => Err(fault_at(reader, behind, Expected::Close)),
    }
}

/// One of the conditions that a joint joins.
#[cycle(conditions)]
fn inside_at<'a>(
    alloc: Global,
    reader: Reader<'_>,
    joint: Joint,
    tokens: &'a [Token],
    depth: u32,
) -> Result<(Condition, &'a [Token]), Unread>
    ensures reads { Reads reader.entry (inside joint) depth tokens.now result }
    ensures shorter { IfOk result (λ read. length read.1.now < length tokens.now) }
{
    match joint {
        Joint::And => single_at(alloc, reader, tokens, depth),
        Joint::Or => joined_at(alloc, reader, Joint::And, tokens, depth),
    }
}

/// The conditions that a joint joins, or one alone.
#[cycle(conditions)]
fn joined_at<'a>(
    alloc: Global,
    reader: Reader<'_>,
    joint: Joint,
    tokens: &'a [Token],
    depth: u32,
) -> Result<(Condition, &'a [Token]), Unread>
    ensures reads { Reads reader.entry (joined joint) depth tokens.now result }
    ensures shorter { IfOk result (λ read. length read.1.now < length tokens.now) }
{
    let (mut so_far, mut rest) = inside_at(alloc, reader, joint, tokens, depth)?;
    while let Some(next) = behind_word(word_of(joint), rest) {
        let (right, behind) = inside_at(alloc, reader, joint, next, depth)?;
        so_far = join(alloc, joint, so_far, right)?;
        rest = behind;
    }
    Ok((so_far, rest))
}

/// Reads the condition that a text says, of what is in the scope.
///
/// # Errors
///
/// `Fault` only where it says none, with the column of the first byte, from 1, of the first token that can't stand
/// there, and what was expected; `NoMemory` where memory runs out.
pub fn read_condition(alloc: Global, text: &str, scope: Scope<'_>) -> Result<Condition, Unread>
    ensures said { IfOk result (λ condition. TextSays scope.entry text.now (formula_of condition)) }
    ensures whole { (formula : Formula) → TextSays scope.entry text.now formula
        → Gives formula_of result (found formula) }
    ensures broken { IfFault result (λ fault. TextBreaks scope.entry text.now fault) }
    ensures once { (fault : ConditionFault) → TextBreaks scope.entry text.now fault
        → Gives formula_of result (missing fault) }
{
    let tokens = tokens_of(alloc, text.as_bytes())?;
    let end = text.len() + 1;
    let reader = Reader { scope, end };
    let (condition, rest) = joined_at(alloc, reader, Joint::Or, &tokens, MOST_DEPTH)?;
    if !rest.is_empty() {
        return Err(fault_at(reader, rest, Expected::Joint));
    }
    Ok(condition)
}
