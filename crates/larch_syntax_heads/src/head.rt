ghost use Rattle.std.specs.Prelude.{◌≡◌, ◌++◌, ◌∷◌, [], IfOk, List, Some};
ghost use Rattle.larch_grammar.specs.Machine.{begin_claim};
ghost use Rattle.larch_grammar.specs.declared.machine.Frame.{Frame};
ghost use Rattle.larch_grammar.specs.declared.machine.Naming.TheVariants.{Formal};
ghost use Rattle.larch_grammar.specs.declared.machine.Whole.TheVariants.{Trait as whole_trait};
ghost use Rattle.larch_syntax_heads.specs.Outcome.{Leaves, Settles, outcome, settle, step_state};

use crate::outcome::{Outcome, ends, outside, stops};
use larch_base::{Memory, Sequence, let_go};
use larch_grammar::{Draft, Naming, RefKind, State, Terminal, implying, named};
use larch_raw::{RawForm, RawForms, RawWord};
use std::alloc::Global;

/// A name is needed.
pub fn at_start(terminal: Terminal) -> Outcome
    ensures { settle result ≡ step_state State.Start terminal }
{
    match terminal {
        Terminal::Word(name) => outside(State::AfterName(name)),
        _ => stops(),
    }
}

/// A name is read.
pub fn after_name(alloc: Global, name: RawWord, terminal: Terminal) -> Outcome
    ensures { settle result ≡ step_state (State.AfterName name) terminal }
{
    match terminal {
        Terminal::Colon(_pos) => outside(State::NeedTrait(name, Sequence::new(alloc))),
        Terminal::Open(_pos) => {
            outside(State::NeedForm(Naming::Formal(name, Sequence::new(alloc))))
        }
        _ => stops(),
    }
}

/// A formal is read, behind these. It fails where memory runs out.
pub fn after_formal(
    name: RawWord,
    formals: RawForms,
    form: RawForm,
    terminal: Terminal,
) -> Result<Outcome, Memory>
    ensures { Settles result (step_state (State.AfterForm (Formal name formals) form) terminal) }
{
    let formals = match with_formal(formals, form) {
        Ok(formals) => formals,
        Err(error) => return Err(let_go(error, (name, terminal))),
    };
    match terminal {
        Terminal::Comma => Ok(outside(State::NeedForm(Naming::Formal(name, formals)))),
        Terminal::Close => Ok(outside(State::AfterFormals(name, formals))),
        other => Ok(let_go(stops(), (name, formals, other))),
    }
}

// The formals with one more.
fn with_formal(formals: RawForms, form: RawForm) -> Result<RawForms, Memory>
    ensures { IfOk result (λ more. more ≡ formals ++ form ∷ []) }
{
    let mut formals = formals;
    formals.push(form)?;
    Ok(formals)
}

/// A name with its formals is read.
pub fn after_formals(name: RawWord, formals: RawForms, terminal: Terminal) -> Outcome
    ensures { settle result ≡ step_state (State.AfterFormals name formals) terminal }
{
    match terminal {
        Terminal::Colon(_pos) => outside(State::NeedTrait(name, formals)),
        _ => stops(),
    }
}

/// The same and `:` are read. It fails where memory runs out.
pub fn need_trait(
    alloc: Global,
    name: RawWord,
    formals: RawForms,
    terminal: Terminal,
) -> Result<Outcome, Memory>
    ensures { Settles result (step_state (State.NeedTrait name formals) terminal) }
{
    match terminal {
        Terminal::Trait => {
            let raw = named(alloc, name, formals)?;
            Ok(outside(State::AfterHead(raw)))
        }
        other => Ok(let_go(stops(), (name, formals, other))),
    }
}

/// The head of a trait is read, or a shorthand or references of it.
pub fn after_head(alloc: Global, raw: Draft, terminal: Terminal) -> Outcome
    ensures { settle result ≡ step_state (State.AfterHead raw) terminal }
{
    match terminal {
        Terminal::Word(word) => outside(State::ShortWord(raw, word)),
        Terminal::Includes => outside(State::NeedRef(raw, RefKind::Included)),
        Terminal::Assumes => outside(State::NeedRef(raw, RefKind::Assumed)),
        Terminal::Introduces => outside(State::InPart(raw)),
        Terminal::Asserts | Terminal::Implies(_) | Terminal::Converts => {
            begin_claim(alloc, raw, terminal)
        }
        _ => ends(raw),
    }
}

/// A part behind the declarations begins, or the trait ends.
pub fn begin_claim(alloc: Global, raw: Draft, terminal: Terminal) -> Outcome
    ensures outcome { settle result ≡ outcome (begin_claim raw terminal) (Some (whole_trait raw)) }
    ensures frames { (frames : List Frame) → Leaves frames result }
{
    match terminal {
        Terminal::Asserts => {
            if raw.implies() {
                ends(raw)
            } else {
                outside(State::InItems(raw))
            }
        }
        Terminal::Implies(lists) => {
            if raw.implies() {
                ends(raw)
            } else if lists {
                outside(State::NeedRef(implying(raw), RefKind::First))
            } else {
                outside(State::AfterImplies(implying(raw)))
            }
        }
        Terminal::Converts => {
            outside(State::NeedForm(Naming::Converted(raw, Sequence::new(alloc))))
        }
        _ => ends(raw),
    }
}
