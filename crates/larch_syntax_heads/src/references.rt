ghost use Rattle.std.specs.Prelude.{◌≡◌, None};
ghost use Rattle.larch_grammar.specs.Machine.{after_actual};
ghost use Rattle.larch_grammar.specs.declared.machine.Naming.TheVariants.{Actual, Renaming, Renamed};
ghost use Rattle.larch_syntax_heads.specs.Outcome.{Settles, outcome, settle, step_state};

use crate::outcome::{Outcome, outside, stops};
use larch_base::{Memory, let_go};
use larch_grammar::{
    Draft, Naming, OpenRef, RefKind, Signing, State, Terminal, close_ref, with_actual,
};
use larch_raw::{RawActual, RawForm};

/// The name of a trait is needed, which is for this.
pub fn need_ref(raw: Draft, kind: RefKind, terminal: Terminal) -> Outcome
    ensures { settle result ≡ step_state (State.NeedRef raw kind) terminal }
{
    match terminal {
        Terminal::Word(name) => outside(State::AfterRefName(raw, kind, name)),
        _ => stops(),
    }
}

// A reference ends behind its actuals.
fn ends_reference(reference: OpenRef) -> Result<Outcome, Memory>
    ensures { Settles result (outcome (after_actual reference Terminal.Close) None) }
{
    let kind = reference.kind;
    let raw = close_ref(reference)?;
    Ok(outside(State::AfterTraitRef(raw, kind)))
}

// An actual is read, the last of these.
fn after_actual(reference: OpenRef, terminal: Terminal) -> Result<Outcome, Memory>
    ensures { Settles result (outcome (after_actual reference terminal) None) }
{
    match terminal {
        Terminal::Comma => Ok(outside(State::NeedForm(Naming::Actual(reference)))),
        Terminal::Close => ends_reference(reference),
        other => Ok(let_go(stops(), (reference, other))),
    }
}

/// A replacement is read, the last of these actuals. It fails where memory runs out.
pub fn after_rename(reference: OpenRef, terminal: Terminal) -> Result<Outcome, Memory>
    ensures { Settles result (step_state (State.AfterRename reference) terminal) }
{
    match terminal {
        Terminal::Comma => Ok(outside(State::NeedForm(Naming::Renaming(reference)))),
        Terminal::Close => ends_reference(reference),
        other => Ok(let_go(stops(), (reference, other))),
    }
}

/// A form is read that is an actual, or the new name of a replacement. It fails where memory runs out.
#[tactic(auto, using(crate::proofs::Defaults::other_plain))]
pub fn after_plain(reference: OpenRef, form: RawForm, terminal: Terminal) -> Result<Outcome, Memory>
    ensures { Settles result (step_state (State.AfterForm (Actual reference) form) terminal) }
{
    match terminal {
        Terminal::For => Ok(outside(State::NeedForm(Naming::Renamed(reference, form)))),
        other => match with_actual(reference, RawActual::Plain(form)) {
            Ok(reference) => after_actual(reference, other),
            Err(error) => Err(let_go(error, other)),
        },
    }
}

/// The new name of a replacement is read.
pub fn after_renaming(reference: OpenRef, form: RawForm, terminal: Terminal) -> Outcome
    ensures { settle result ≡ step_state (State.AfterForm (Renaming reference) form) terminal }
{
    match terminal {
        Terminal::For => outside(State::NeedForm(Naming::Renamed(reference, form))),
        _ => stops(),
    }
}

/// The old name of a replacement is read. It fails where memory runs out.
#[tactic(auto, using(crate::proofs::Defaults::other_renamed))]
pub fn after_renamed(
    reference: OpenRef,
    renamed: RawForm,
    form: RawForm,
    terminal: Terminal,
) -> Result<Outcome, Memory>
    ensures { Settles result (step_state (State.AfterForm (Renamed reference renamed) form) terminal) }
{
    match terminal {
        Terminal::Colon(_pos) => Ok(outside(State::NeedSig(Signing::Replacement(
            reference, renamed, form,
        )))),
        other => match with_actual(reference, RawActual::Replace(renamed, form, None)) {
            Ok(reference) => after_rename(reference, other),
            Err(error) => Err(let_go(error, other)),
        },
    }
}
