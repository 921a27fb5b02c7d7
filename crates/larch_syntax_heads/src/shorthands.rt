ghost use Rattle.std.specs.Prelude.{◌≡◌};
ghost use Rattle.larch_syntax_heads.specs.Outcome.{Settles, settle, step_state};

use crate::head::after_head;
use crate::outcome::{Outcome, outside, stops};
use larch_base::{Memory, Sequence, let_go};
use larch_grammar::{
    Draft, FieldsKind, OpenFields, State, Terminal, close_fields, open_fields, with_fields,
    with_shorthand, with_word,
};
use larch_raw::{RawShorthand, RawWord, RawWords};
use std::alloc::Global;

/// The word that begins a shorthand is read.
pub fn short_word(raw: Draft, sort: RawWord, terminal: Terminal) -> Outcome
    ensures { settle result ≡ step_state (State.ShortWord raw sort) terminal }
{
    match terminal {
        Terminal::Enumeration => outside(State::NeedConstants(raw, sort)),
        Terminal::Tuple => outside(State::NeedFields(raw, FieldsKind::Tuple, sort)),
        Terminal::Union => outside(State::NeedFields(raw, FieldsKind::Union, sort)),
        _ => stops(),
    }
}

/// `enumeration` is read.
pub fn need_constants(alloc: Global, raw: Draft, sort: RawWord, terminal: Terminal) -> Outcome
    ensures { settle result ≡ step_state (State.NeedConstants raw sort) terminal }
{
    match terminal {
        Terminal::Of => outside(State::NeedConstant(raw, sort, Sequence::new(alloc))),
        _ => stops(),
    }
}

/// A constant is needed, behind these. It fails where memory runs out.
pub fn need_constant(
    raw: Draft,
    sort: RawWord,
    constants: RawWords,
    terminal: Terminal,
) -> Result<Outcome, Memory>
    ensures { Settles result (step_state (State.NeedConstant raw sort constants) terminal) }
{
    match terminal {
        Terminal::Word(word) => match with_word(constants, word) {
            Ok(constants) => Ok(outside(State::AfterConstant(raw, sort, constants))),
            Err(error) => Err(let_go(error, (raw, sort))),
        },
        other => Ok(let_go(stops(), (raw, sort, constants, other))),
    }
}

/// A constant is read, the last of these. It fails where memory runs out.
#[tactic(auto, using(crate::proofs::Defaults::other_constant))]
pub fn after_constant(
    alloc: Global,
    raw: Draft,
    sort: RawWord,
    constants: RawWords,
    terminal: Terminal,
) -> Result<Outcome, Memory>
    ensures { Settles result (step_state (State.AfterConstant raw sort constants) terminal) }
{
    match terminal {
        Terminal::Comma => Ok(outside(State::NeedConstant(raw, sort, constants))),
        other => match with_shorthand(raw, RawShorthand::Enumeration(sort, constants)) {
            Ok(raw) => Ok(after_head(alloc, raw, other)),
            Err(error) => Err(let_go(error, other)),
        },
    }
}

/// `tuple` or `union` is read.
pub fn need_fields(
    alloc: Global,
    raw: Draft,
    kind: FieldsKind,
    sort: RawWord,
    terminal: Terminal,
) -> Outcome
    ensures { settle result ≡ step_state (State.NeedFields raw kind sort) terminal }
{
    match terminal {
        Terminal::Of => outside(State::NeedName(open_fields(alloc, raw, kind, sort))),
        _ => stops(),
    }
}

/// The name of a field is needed. It fails where memory runs out.
pub fn need_name(
    alloc: Global,
    shorthand: OpenFields,
    terminal: Terminal,
) -> Result<Outcome, Memory>
    ensures { Settles result (step_state (State.NeedName shorthand) terminal) }
{
    match terminal {
        Terminal::Word(name) => match with_word(Sequence::new(alloc), name) {
            Ok(names) => Ok(outside(State::AfterNames(shorthand, names))),
            Err(error) => Err(let_go(error, shorthand)),
        },
        other => Ok(let_go(stops(), (shorthand, other))),
    }
}

/// Names of fields are read.
pub fn after_names(shorthand: OpenFields, names: RawWords, terminal: Terminal) -> Outcome
    ensures { settle result ≡ step_state (State.AfterNames shorthand names) terminal }
{
    match terminal {
        Terminal::Comma => outside(State::NeedFurtherName(shorthand, names)),
        Terminal::Colon(_pos) => outside(State::NeedNamesSort(shorthand, names)),
        _ => stops(),
    }
}

/// A `,` behind names of fields is read. It fails where memory runs out.
pub fn need_further_name(
    shorthand: OpenFields,
    names: RawWords,
    terminal: Terminal,
) -> Result<Outcome, Memory>
    ensures { Settles result (step_state (State.NeedFurtherName shorthand names) terminal) }
{
    match terminal {
        Terminal::Word(name) => match with_word(names, name) {
            Ok(names) => Ok(outside(State::AfterNames(shorthand, names))),
            Err(error) => Err(let_go(error, shorthand)),
        },
        other => Ok(let_go(stops(), (shorthand, names, other))),
    }
}

/// The `:` behind names of fields is read. It fails where memory runs out.
pub fn need_names_sort(
    shorthand: OpenFields,
    names: RawWords,
    terminal: Terminal,
) -> Result<Outcome, Memory>
    ensures { Settles result (step_state (State.NeedNamesSort shorthand names) terminal) }
{
    match terminal {
        Terminal::Word(sort) => {
            let shorthand = with_fields(shorthand, &names, &sort)?;
            Ok(outside(State::AfterField(shorthand)))
        }
        other => Ok(let_go(stops(), (shorthand, names, other))),
    }
}

/// Fields with their sorts are read. It fails where memory runs out.
#[tactic(auto, using(crate::proofs::Defaults::other_field))]
pub fn after_field(
    alloc: Global,
    shorthand: OpenFields,
    terminal: Terminal,
) -> Result<Outcome, Memory>
    ensures { Settles result (step_state (State.AfterField shorthand) terminal) }
{
    match terminal {
        Terminal::Comma => Ok(outside(State::NeedName(shorthand))),
        other => match close_fields(shorthand) {
            Ok(raw) => Ok(after_head(alloc, raw, other)),
            Err(error) => Err(let_go(error, other)),
        },
    }
}
