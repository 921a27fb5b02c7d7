ghost use Rattle.std.specs.Prelude.{◌≡◌, ◌++◌, ◌∷◌, [], IfOk, List, None, Some};
ghost use Rattle.larch_grammar.specs.Machine.{begin_part, begin_quantified, end_equation, hand_equation};
ghost use Rattle.larch_grammar.specs.Machine.{open_item, word_frames};
ghost use Rattle.larch_grammar.specs.Traits.{with_equations};
ghost use Rattle.larch_grammar.specs.declared.machine.Frame.{Frame};
ghost use Rattle.larch_grammar.specs.declared.machine.Waiting.TheVariants.{Item};
ghost use Rattle.larch_syntax_heads.specs.Outcome.{Leaves, Settles, outcome, settle, step_state};

use crate::begin::{begin_equation, word_frames};
use crate::conversions::begin_exempted;
use crate::forms::begin_form;
use crate::hand::after_word;
use larch_base::{Memory, Sequence, let_go};
use larch_grammar::{
    Clause, Draft, Naming, OpenItem, State, Terminal, VariablesFor, Waiting, Whole,
    open_conversion, with_equations, with_group, with_word,
};
use larch_raw::{ClauseKind, RawEquation, RawVars, RawWord, RawWords};
use larch_syntax_heads::{Outcome, at_head, begin_claim, ends, outside, stops};
use std::alloc::Global;

// `introduces` or a declaration is read.
pub(crate) fn in_part(alloc: Global, raw: Draft, terminal: Terminal) -> Outcome
    ensures { settle result ≡ step_state (State.InPart raw) terminal }
{
    match terminal {
        Terminal::Introduces => outside(State::InPart(raw)),
        Terminal::Asserts | Terminal::Implies(_) | Terminal::Converts => {
            begin_claim(alloc, raw, terminal)
        }
        Terminal::Word(_)
        | Terminal::Symbol(_)
        | Terminal::Dot(_)
        | Terminal::Marker(_)
        | Terminal::OpenBracket(_, _) => {
            begin_form(Naming::Declared(raw, Sequence::new(alloc)), terminal)
        }
        _ => ends(raw),
    }
}

// A part, or an item that needs no `;` before it.
fn begin_part(alloc: Global, raw: Draft, terminal: Terminal) -> Outcome
    ensures outcome { settle result ≡ outcome (begin_part raw terminal) (Some (Whole.Trait raw)) }
    ensures frames { (frames : List Frame) → Leaves frames result }
{
    match terminal {
        Terminal::ForAll => {
            outside(State::NeedVariable(VariablesFor::Quantified(raw), Sequence::new(alloc)))
        }
        Terminal::Asserts | Terminal::Implies(_) | Terminal::Converts => {
            begin_claim(alloc, raw, terminal)
        }
        _ => ends(raw),
    }
}

// An equation of an item over no variables, which is its first.
pub(crate) fn first_of_item(alloc: Global, raw: Draft) -> Waiting
    ensures { result ≡ Item (open_item raw [] []) }
{
    Waiting::Item(OpenItem {
        raw,
        variables: Sequence::new(alloc),
        equations: Sequence::new(alloc),
    })
}

// The first token of any item, or a part.
pub(crate) fn begin_item(alloc: Global, raw: Draft, terminal: Terminal) -> Result<Outcome, Memory>
    ensures { Settles result (step_state (State.InItems raw) terminal) }
{
    match terminal {
        Terminal::Word(word) => Ok(at_head(State::FirstWord(raw, word))),
        Terminal::ForAll | Terminal::Asserts | Terminal::Implies(_) | Terminal::Converts => {
            Ok(begin_part(alloc, raw, terminal))
        }
        Terminal::Symbol(_)
        | Terminal::Not(_)
        | Terminal::Open(_)
        | Terminal::OpenBracket(_, _)
        | Terminal::If(_) => begin_equation(alloc, terminal, first_of_item(alloc, raw)),
        _ => Ok(ends(raw)),
    }
}

// An equation is read, and a token stands behind it.
pub(crate) fn hand_equation(
    alloc: Global,
    equation: RawEquation,
    waiting: Waiting,
    terminal: Terminal,
) -> Result<Outcome, Memory>
    ensures outcome { Settles result
        (outcome (hand_equation equation waiting terminal) (end_equation equation waiting)) }
    ensures frames { (frames : List Frame) → IfOk result (Leaves frames) }
{
    match waiting {
        Waiting::Alone => Ok(Outcome::Stops(Some(Whole::Equation(equation)))),
        Waiting::Item(item) => behind_equation(alloc, item, equation, terminal),
    }
}

// The trait with an item that is open no more.
fn close_item(item: OpenItem) -> Result<Draft, Memory>
    ensures { IfOk result (λ raw. raw ≡ with_equations item.raw item.variables item.equations) }
{
    let OpenItem {
        raw,
        variables,
        equations,
    } = item;
    with_equations(raw, variables, equations)
}

// The item with one equation more.
fn with_equation(item: OpenItem, equation: RawEquation) -> Result<OpenItem, Memory>
    ensures { IfOk result (λ more. more ≡ open_item item.raw item.variables (item.equations ++ equation ∷ [])) }
{
    let mut item = item;
    item.equations.push(equation)?;
    Ok(item)
}

// The same where it is the last equation of this item.
fn behind_equation(
    alloc: Global,
    item: OpenItem,
    equation: RawEquation,
    terminal: Terminal,
) -> Result<Outcome, Memory>
    ensures outcome { Settles result
        (outcome (hand_equation equation (Item item) terminal) (end_equation equation (Item item))) }
    ensures frames { (frames : List Frame) → IfOk result (Leaves frames) }
{
    let item = match with_equation(item, equation) {
        Ok(item) => item,
        Err(error) => return Err(let_go(error, terminal)),
    };
    match terminal {
        Terminal::Semicolon => Ok(outside(State::AfterSemicolon(item))),
        Terminal::Word(word) => {
            let raw = close_item(item)?;
            Ok(outside(State::ClauseWord(raw, word)))
        }
        Terminal::ForAll | Terminal::Asserts | Terminal::Implies(_) | Terminal::Converts => {
            match close_item(item) {
                Ok(raw) => Ok(begin_part(alloc, raw, terminal)),
                Err(error) => Err(let_go(error, terminal)),
            }
        }
        other => match close_item(item) {
            Ok(raw) => Ok(let_go(ends(raw), other)),
            Err(error) => Err(let_go(error, other)),
        },
    }
}

// A word that begins an item is read.
#[tactic(auto, using(crate::proofs::Defaults::other_first))]
pub(crate) fn first_word(
    alloc: Global,
    raw: Draft,
    word: RawWord,
    terminal: Terminal,
) -> Result<Outcome, Memory>
    ensures { Settles result (step_state (State.FirstWord raw word) terminal) }
{
    match terminal {
        Terminal::Generated | Terminal::Partitioned => { Ok(clause_word(raw, word, terminal)) }
        other => word_of_equation(alloc, word, first_of_item(alloc, raw), other),
    }
}

// A word that begins an equation is read.
fn word_of_equation(
    alloc: Global,
    word: RawWord,
    waiting: Waiting,
    terminal: Terminal,
) -> Result<Outcome, Memory>
    ensures { Settles result (step_state (State.AfterWord word (word_frames word waiting)) terminal) }
{
    match word_frames(alloc, &word, waiting) {
        Ok(frames) => after_word(alloc, word, frames, terminal),
        Err(error) => Err(let_go(error, (word, terminal))),
    }
}

// A word behind the `;` of these equations is read.
#[tactic(auto, using(crate::proofs::Defaults::other_behind))]
pub(crate) fn word_behind(
    alloc: Global,
    item: OpenItem,
    word: RawWord,
    terminal: Terminal,
) -> Result<Outcome, Memory>
    ensures { Settles result (step_state (State.WordBehind item word) terminal) }
{
    match terminal {
        Terminal::Generated | Terminal::Partitioned => match close_item(item) {
            Ok(raw) => Ok(clause_word(raw, word, terminal)),
            Err(error) => Err(let_go(error, (word, terminal))),
        },
        other => { word_of_equation(alloc, word, Waiting::Item(item), other) }
    }
}

// The word that begins a clause is read.
pub(crate) fn clause_word(raw: Draft, sort: RawWord, terminal: Terminal) -> Outcome
    ensures { settle result ≡ step_state (State.ClauseWord raw sort) terminal }
{
    let kind = match terminal {
        Terminal::Generated => ClauseKind::Generated,
        Terminal::Partitioned => ClauseKind::Partitioned,
        _ => return stops(),
    };
    outside(State::NeedBy(Clause { raw, kind, sort }))
}

// `generated` or `partitioned` is read.
pub(crate) fn need_by(alloc: Global, clause: Clause, terminal: Terminal) -> Outcome
    ensures { settle result ≡ step_state (State.NeedBy clause) terminal }
{
    match terminal {
        Terminal::By => {
            let naming = Naming::Referred(clause, Sequence::new(alloc));
            outside(State::NeedForm(naming))
        }
        _ => stops(),
    }
}

// The `;` of these equations is read.
pub(crate) fn after_semicolon(
    alloc: Global,
    item: OpenItem,
    terminal: Terminal,
) -> Result<Outcome, Memory>
    ensures { Settles result (step_state (State.AfterSemicolon item) terminal) }
{
    match terminal {
        Terminal::Word(word) => Ok(at_head(State::WordBehind(item, word))),
        Terminal::ForAll | Terminal::Asserts | Terminal::Implies(_) | Terminal::Converts => {
            match close_item(item) {
                Ok(raw) => Ok(begin_part(alloc, raw, terminal)),
                Err(error) => Err(let_go(error, terminal)),
            }
        }
        Terminal::Symbol(_)
        | Terminal::Not(_)
        | Terminal::Open(_)
        | Terminal::OpenBracket(_, _)
        | Terminal::If(_) => { begin_equation(alloc, terminal, Waiting::Item(item)) }
        other => match close_item(item) {
            Ok(raw) => Ok(let_go(ends(raw), other)),
            Err(error) => Err(let_go(error, other)),
        },
    }
}

// A variable is needed.
pub(crate) fn need_variable(
    alloc: Global,
    scope: VariablesFor,
    variables: RawVars,
    terminal: Terminal,
) -> Result<Outcome, Memory>
    ensures { Settles result (step_state (State.NeedVariable scope variables) terminal) }
{
    match terminal {
        Terminal::Word(name) => match with_word(Sequence::new(alloc), name) {
            Ok(names) => Ok(outside(State::AfterVariable(scope, variables, names))),
            Err(error) => Err(let_go(error, (scope, variables))),
        },
        other => Ok(let_go(stops(), (scope, variables, other))),
    }
}

// Names of variables are read.
pub(crate) fn after_variable(
    scope: VariablesFor,
    variables: RawVars,
    names: RawWords,
    terminal: Terminal,
) -> Outcome
    ensures { settle result ≡ step_state (State.AfterVariable scope variables names) terminal }
{
    match terminal {
        Terminal::Comma => outside(State::NeedFurtherVariable(scope, variables, names)),
        Terminal::Colon(_pos) => outside(State::NeedVariableSort(scope, variables, names)),
        other => let_go(stops(), (scope, variables, names, other)),
    }
}

// A `,` behind names of variables is read.
pub(crate) fn need_further_variable(
    scope: VariablesFor,
    variables: RawVars,
    names: RawWords,
    terminal: Terminal,
) -> Result<Outcome, Memory>
    ensures { Settles result (step_state (State.NeedFurtherVariable scope variables names) terminal) }
{
    match terminal {
        Terminal::Word(name) => match with_word(names, name) {
            Ok(names) => Ok(outside(State::AfterVariable(scope, variables, names))),
            Err(error) => Err(let_go(error, (scope, variables))),
        },
        other => Ok(let_go(stops(), (scope, variables, names, other))),
    }
}

// The `:` behind names of variables is read.
pub(crate) fn need_variable_sort(
    scope: VariablesFor,
    variables: RawVars,
    names: RawWords,
    terminal: Terminal,
) -> Result<Outcome, Memory>
    ensures { Settles result (step_state (State.NeedVariableSort scope variables names) terminal) }
{
    match terminal {
        Terminal::Word(sort) => match with_group(variables, &names, &sort) {
            Ok(variables) => Ok(outside(State::AfterGroup(scope, variables))),
            Err(error) => Err(let_go(error, scope)),
        },
        other => Ok(let_go(stops(), (scope, variables, names, other))),
    }
}

// Variables with their sorts are read.
#[tactic(auto, using(crate::proofs::Defaults::other_group))]
pub(crate) fn after_group(
    alloc: Global,
    scope: VariablesFor,
    variables: RawVars,
    terminal: Terminal,
) -> Result<Outcome, Memory>
    ensures { Settles result (step_state (State.AfterGroup scope variables) terminal) }
{
    match terminal {
        Terminal::Comma => Ok(outside(State::NeedVariable(scope, variables))),
        other => begin_quantified(alloc, scope, variables, other),
    }
}

// What variables are read for begins: an equation, or a term that is exempted.
fn begin_quantified(
    alloc: Global,
    scope: VariablesFor,
    variables: RawVars,
    terminal: Terminal,
) -> Result<Outcome, Memory>
    ensures { Settles result (outcome (begin_quantified scope variables terminal) None) }
{
    match scope {
        VariablesFor::Quantified(raw) => {
            let item = OpenItem {
                raw,
                variables,
                equations: Sequence::new(alloc),
            };
            begin_equation(alloc, terminal, Waiting::Item(item))
        }
        VariablesFor::Exempted(raw, refs) => {
            let conversion = open_conversion(alloc, raw, refs, variables);
            begin_exempted(alloc, conversion, terminal)
        }
    }
}
