ghost use Rattle.std.specs.Prelude.{◌≡◌, ◌≤◌, IfOk, option_map};
ghost use Rattle.larch_script_commands.specs.declared.command.CommandKind.TheVariants.{Cases, Normalize, Prove};
ghost use Rattle.larch_script.specs.Commands.{box_checking, by_verb, command_of, critical, declaration, declaration_of};
ghost use Rattle.larch_script.specs.Commands.{duty, induction, label_of, label_from, limit, limit_of, lone_word};
ghost use Rattle.larch_script.specs.Commands.{method, method_of, resumption, setting, switch_of, verb_of};
ghost use Rattle.larch_script.specs.Commands.{with_second};
ghost use Rattle.larch_script.specs.Facts.{whole_fact_at};
ghost use Rattle.larch_script.specs.Terms.{whole_equation_at, whole_term_at};

use crate::facts::{fact_at, whole_fact_at};
use crate::instances::instantiation;
use crate::numbers::number_of;
use crate::register::registration;
use crate::terms::{whole_equation_at, whole_term_at};
use crate::tokens::{ends, plain_word, says, says_dashed, text_at, word_at};
use larch_base::limits::MAX_REWRITING_LIMIT;
use larch_base::{FactName, Label, Memory, Sequence};
use larch_lexer::{Token, Tokens};
use larch_raw::{RawWord, RawWords};
use larch_script_commands::CommandKind;
use std::alloc::Global;

/// The first words of commands.
#[derive(Clone, Copy)]
pub(crate) enum Verb {
    Declare,
    Set,
    Register,
    Prove,
    Resume,
    Instantiate,
    Critical,
    Normalize,
    Qed,
}

/// The label of `duty LABEL`.
pub(crate) fn duty(tokens: &[Token]) -> Option<Label>
    ensures { result ≡ duty tokens.now }
{
    if says(tokens, 2, b".") && ends(tokens, 4) {
        let number = number_of(text_at(tokens, 3))?;
        label_of(text_at(tokens, 1), number)
    } else {
        None
    }
}

fn label_of(kind: &[u8], number: u32) -> Option<Label>
    ensures { result ≡ label_of kind.now number }
{
    if 1 <= number {
        label_from(kind, number)
    } else {
        None
    }
}

fn label_from(kind: &[u8], number: u32) -> Option<Label>
    ensures { result ≡ label_from kind.now number }
{
    if kind == b"assume".as_slice() {
        Some(Label::Assume(number))
    } else if kind == b"imply".as_slice() {
        Some(Label::Imply(number))
    } else if kind == b"convert".as_slice() {
        Some(Label::Convert(number))
    } else {
        None
    }
}

/// What the tokens command.
pub(crate) fn command_of(alloc: Global, tokens: &Tokens) -> Result<Option<CommandKind>, Memory>
    ensures { IfOk result (λ kind. kind ≡ command_of tokens.now) }
{
    match verb_of(text_at(tokens.as_slice(), 0)) {
        Some(verb) => by_verb(alloc, tokens, verb),
        None => Ok(None),
    }
}

fn by_verb(alloc: Global, tokens: &Tokens, verb: Verb) -> Result<Option<CommandKind>, Memory>
    ensures { IfOk result (λ kind. kind ≡ by_verb tokens.now verb) }
{
    let all = tokens.as_slice();
    match verb {
        Verb::Declare => declaration(alloc, all),
        Verb::Set => Ok(setting(all)),
        Verb::Register => registration(alloc, tokens),
        Verb::Prove => proof(alloc, tokens),
        Verb::Resume => resumption(alloc, tokens),
        Verb::Instantiate => instantiation(alloc, tokens),
        Verb::Critical => Ok(critical(all)),
        Verb::Normalize => Ok(normalizing(all)),
        Verb::Qed => Ok(if ends(all, 1) {
            Some(CommandKind::Qed)
        } else {
            None
        }),
    }
}

fn verb_of(text: &[u8]) -> Option<Verb>
    ensures { result ≡ verb_of text.now }
{
    if text == b"declare".as_slice() {
        Some(Verb::Declare)
    } else if text == b"set".as_slice() {
        Some(Verb::Set)
    } else if text == b"register".as_slice() {
        Some(Verb::Register)
    } else if text == b"prove".as_slice() {
        Some(Verb::Prove)
    } else if text == b"resume".as_slice() {
        Some(Verb::Resume)
    } else if text == b"instantiate".as_slice() {
        Some(Verb::Instantiate)
    } else if text == b"critical".as_slice() {
        Some(Verb::Critical)
    } else if text == b"normalize".as_slice() {
        Some(Verb::Normalize)
    } else if text == b"qed".as_slice() {
        Some(Verb::Qed)
    } else {
        None
    }
}

// `declare variables x, y: S`; `variable` is right too.
fn declaration(alloc: Global, tokens: &[Token]) -> Result<Option<CommandKind>, Memory>
    ensures { IfOk result (λ kind. kind ≡ declaration tokens.now) }
{
    let [_verb, _noun, rest @ ..] = tokens else {
        return Ok(None);
    };
    if !says(tokens, 1, b"variables") && !says(tokens, 1, b"variable") {
        return Ok(None);
    }
    match declaration_of(alloc, rest)? {
        Some((names, sort)) => Ok(Some(CommandKind::Declare(names, sort))),
        None => Ok(None),
    }
}

// Names between commas, then `:`, a sort and no more.
fn declaration_of(alloc: Global, tokens: &[Token]) -> Result<Option<(RawWords, RawWord)>, Memory>
    ensures { IfOk result (λ found. found ≡ declaration_of tokens.now) }
{
    let mut names = Sequence::new(alloc);
    let mut rest = tokens;
    while let [first, sign, others @ ..] = rest {
        let Some(name) = plain_word(first)? else {
            return Ok(None);
        };
        names.push(name)?;
        if sign.text.bytes() == b",".as_slice() {
            rest = others;
        } else if sign.text.bytes() == b":".as_slice() {
            return with_sort(names, others);
        } else {
            return Ok(None);
        }
    }
    Ok(None)
}

// The names with the sort that is all of these tokens.
fn with_sort(names: RawWords, tokens: &[Token]) -> Result<Option<(RawWords, RawWord)>, Memory>
    ensures { IfOk result (λ found. found ≡ option_map (λ sort. (names, sort)) (lone_word tokens.now)) }
{
    match lone_word(tokens)? {
        Some(sort) => Ok(Some((names, sort))),
        None => Ok(None),
    }
}

// The word that is all of these tokens.
fn lone_word(tokens: &[Token]) -> Result<Option<RawWord>, Memory>
    ensures { IfOk result (λ word. word ≡ lone_word tokens.now) }
{
    match tokens {
        [token] => plain_word(token),
        _ => Ok(None),
    }
}

// `set` and what it sets.
fn setting(tokens: &[Token]) -> Option<CommandKind>
    ensures { result ≡ setting tokens.now }
{
    if says(tokens, 1, b"box") {
        box_checking(tokens)
    } else {
        limit(tokens)
    }
}

// `set rewriting-limit N`.
fn limit(tokens: &[Token]) -> Option<CommandKind>
    ensures { result ≡ limit tokens.now }
{
    if ends(tokens, 5) && says_dashed(tokens, 1, b"rewriting", b"limit") {
        let number = number_of(text_at(tokens, 4))?;
        limit_of(number)
    } else {
        None
    }
}

fn limit_of(number: u32) -> Option<CommandKind>
    ensures { result ≡ limit_of number }
{
    if 1 <= number && number <= MAX_REWRITING_LIMIT {
        Some(CommandKind::Limit(number))
    } else {
        None
    }
}

// `set box-checking on`, or `off`.
fn box_checking(tokens: &[Token]) -> Option<CommandKind>
    ensures { result ≡ box_checking tokens.now }
{
    if ends(tokens, 5) && says_dashed(tokens, 1, b"box", b"checking") {
        let on = switch_of(text_at(tokens, 4))?;
        Some(CommandKind::BoxChecking(on))
    } else {
        None
    }
}

fn switch_of(text: &[u8]) -> Option<bool>
    ensures { result ≡ switch_of text.now }
{
    if text == b"on".as_slice() {
        Some(true)
    } else if text == b"off".as_slice() {
        Some(false)
    } else {
        None
    }
}

// `prove` and the equation behind it.
fn proof(alloc: Global, tokens: &Tokens) -> Result<Option<CommandKind>, Memory>
    ensures { IfOk result (λ kind. kind ≡ option_map Prove (whole_equation_at tokens.now 1)) }
{
    match whole_equation_at(alloc, tokens, 1)? {
        Some(equation) => Ok(Some(CommandKind::Prove(equation))),
        None => Ok(None),
    }
}

// `resume by` a method.
fn resumption(alloc: Global, tokens: &Tokens) -> Result<Option<CommandKind>, Memory>
    ensures { IfOk result (λ kind. kind ≡ resumption tokens.now) }
{
    if says(tokens.as_slice(), 1, b"by") {
        method(alloc, tokens)
    } else {
        Ok(None)
    }
}

// A method behind `resume by`.
fn method(alloc: Global, tokens: &Tokens) -> Result<Option<CommandKind>, Memory>
    ensures { IfOk result (λ kind. kind ≡ method tokens.now) }
{
    let all = tokens.as_slice();
    if says(all, 2, b"cases") {
        cases(alloc, tokens)
    } else if says(all, 2, b"induction") {
        induction(all)
    } else if ends(all, 3) {
        Ok(method_of(text_at(all, 2)))
    } else {
        Ok(None)
    }
}

// `resume by cases` and the term behind it.
fn cases(alloc: Global, tokens: &Tokens) -> Result<Option<CommandKind>, Memory>
    ensures { IfOk result (λ kind. kind ≡ option_map Cases (whole_term_at tokens.now 3)) }
{
    match whole_term_at(alloc, tokens, 3)? {
        Some(term) => Ok(Some(CommandKind::Cases(term))),
        None => Ok(None),
    }
}

// `resume by induction on x`.
fn induction(tokens: &[Token]) -> Result<Option<CommandKind>, Memory>
    ensures { IfOk result (λ kind. kind ≡ induction tokens.now) }
{
    if !says(tokens, 3, b"on") || !ends(tokens, 5) {
        return Ok(None);
    }
    match word_at(tokens, 4)? {
        Some(variable) => Ok(Some(CommandKind::Induction(variable))),
        None => Ok(None),
    }
}

fn method_of(text: &[u8]) -> Option<CommandKind>
    ensures { result ≡ method_of text.now }
{
    if text == b"=>".as_slice() {
        Some(CommandKind::Implication)
    } else if text == b"/\\".as_slice() {
        Some(CommandKind::Conjunction)
    } else if text == b"contradiction".as_slice() {
        Some(CommandKind::Contradiction)
    } else if text == b"partition".as_slice() {
        Some(CommandKind::Partition)
    } else {
        None
    }
}

// `critical-pairs FACT with FACT`.
fn critical(tokens: &[Token]) -> Option<CommandKind>
    ensures { result ≡ critical tokens.now }
{
    if says(tokens, 1, b"-") && says(tokens, 2, b"pairs") {
        let (first, index) = fact_at(tokens, 3)?;
        with_second(tokens, first, index)
    } else {
        None
    }
}

// `with` and the second fact behind the first one.
fn with_second(tokens: &[Token], first: FactName, index: usize) -> Option<CommandKind>
    requires { index ≤ 6 }
    ensures { result ≡ with_second tokens.now (first, index) }
{
    if !says(tokens, index, b"with") {
        return None;
    }
    let second = whole_fact_at(tokens, index + 1)?;
    Some(CommandKind::CriticalPairs(first, second))
}

// `normalize FACT`.
fn normalizing(tokens: &[Token]) -> Option<CommandKind>
    ensures { result ≡ option_map Normalize (whole_fact_at tokens.now 1) }
{
    let fact = whole_fact_at(tokens, 1)?;
    Some(CommandKind::Normalize(fact))
}
