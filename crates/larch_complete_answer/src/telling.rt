ghost use Rattle.std.specs.Prelude.{◌≡◌, ◌++◌, IfOk, OnOk, map};
ghost use Rattle.larch_complete_answer.specs.Told.{completion_told, ending_text, is_complete, told_of, unoriented_text};
ghost use Rattle.larch_complete_rounds.specs.Certified.{sides_behind};
ghost use Rattle.larch_derive.specs.Words.{IsWordedTheory};
ghost use Rattle.larch_term.specs.Statement.{IsWellSortedTheory};

use crate::rules::append_rules;
use larch_base::{Bytes, Memory};
use larch_complete::complete;
use larch_complete_meaning::CompletionAnswer;
use larch_complete_rounds::CertifiedRule;
use larch_print::write_statement;
use larch_term::{Statement, Theory};
use std::alloc::Global;

/// What is written of a completion, and whether it is complete.
#[derive(Drop)]
pub struct Told {
    pub text: Bytes,
    pub complete: bool,
}

/// What is written of a theory's completion with a rewriting limit: its rules, where they decide the theory's
/// equations; or else how their making ends.
pub fn tell_completion(alloc: Global, theory: &Theory, limit: u32) -> Result<Told, Memory>
    requires sorted { IsWellSortedTheory theory.now }
    requires worded { IsWordedTheory theory.now }
    ensures { IfOk result (λ told. told ≡ completion_told theory.now limit) }
{
    let completion = complete(alloc, theory, limit)?;
    told_of(alloc, &completion.answer, completion.rules.as_slice())
}

// What is written of a completion that ends so, with these rules.
fn told_of(
    alloc: Global,
    answer: &CompletionAnswer,
    rules: &[CertifiedRule],
) -> Result<Told, Memory>
    ensures { IfOk result (λ told. told
        ≡ told_of (record { answer = answer.now; rules = map sides_behind rules.now })) }
{
    let mut text = Bytes::new(alloc);
    append_ending(alloc, &mut text, answer, rules)?;
    let complete = is_complete(answer);
    Ok(Told { text, complete })
}

// Whether a completion that ends so is complete.
fn is_complete(answer: &CompletionAnswer) -> bool
    ensures { result ≡ is_complete answer.now }
{
    match answer {
        CompletionAnswer::Complete => true,
        _ => false,
    }
}

// Puts what is written of a completion that ends so at the end.
fn append_ending(
    alloc: Global,
    text: &mut Bytes,
    answer: &CompletionAnswer,
    rules: &[CertifiedRule],
) -> Result<(), Memory>
    ensures { OnOk result (text.new ≡ text.old ++ ending_text answer.now (map sides_behind rules.now)) }
{
    match answer {
        CompletionAnswer::Complete => append_rules(alloc, text, rules),
        CompletionAnswer::Unoriented(statement) => append_unoriented(text, statement),
        CompletionAnswer::Limit => text.append(b"LIMIT\n"),
        CompletionAnswer::TooLarge => text.append(b"SIZE\n"),
        CompletionAnswer::Spent => text.append(b"spent\n"),
    }
}

// Puts the line of an equation at the end neither side of which is greater.
fn append_unoriented(text: &mut Bytes, statement: &Statement) -> Result<(), Memory>
    ensures { OnOk result (text.new ≡ text.old ++ unoriented_text statement.now) }
{
    text.append(b"unoriented ")?;
    write_statement(text, statement)?;
    text.append(b"\n")
}
