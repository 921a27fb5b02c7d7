ghost use Rattle.std.specs.Prelude.{◌≡◌, ◌∷◌, [], IfOk, List, Some};
ghost use Rattle.larch_grammar.specs.Machine.{begin_conversion, begin_exempted, close_conversion};
ghost use Rattle.larch_grammar.specs.declared.machine.Frame.{Frame};
ghost use Rattle.larch_grammar.specs.declared.machine.Frame.TheVariants.{InExempted};
ghost use Rattle.larch_grammar.specs.declared.machine.Naming.TheVariants.{Converted};
ghost use Rattle.larch_grammar.specs.declared.machine.Whole.TheVariants.{Trait as whole_trait};
ghost use Rattle.larch_syntax_heads.specs.Outcome.{Leaves, Settles, hand_over, outcome, settle, step_state};

use crate::begin::begin_term;
use larch_base::{Memory, Pos, Sequence, let_go};
use larch_grammar::{
    Draft, Frame, Naming, OpenConversion, Signing, Stack, State, Terminal, VariablesFor,
    close_conversion, formula_of, open_conversion, position_of, with_converted, with_exempted,
    with_reference,
};
use larch_raw::{RawForm, RawOpRefs, RawTerm};
use larch_syntax_heads::{Outcome, ends, outside};
use std::alloc::Global;

// A further conversion begins, or the trait ends.
fn begin_conversion(alloc: Global, raw: Draft, terminal: Terminal) -> Outcome
    ensures outcome { settle result ≡ outcome (begin_conversion raw terminal) (Some (whole_trait raw)) }
    ensures frames { (frames : List Frame) → Leaves frames result }
{
    match terminal {
        Terminal::Converts => {
            outside(State::NeedForm(Naming::Converted(raw, Sequence::new(alloc))))
        }
        _ => ends(raw),
    }
}

// A form of a reference of a conversion is read.
#[tactic(auto, using(crate::proofs::Defaults::other_converted_form))]
pub(crate) fn after_converted_form(
    alloc: Global,
    raw: Draft,
    refs: RawOpRefs,
    form: RawForm,
    terminal: Terminal,
) -> Result<Outcome, Memory>
    ensures { Settles result (step_state (State.AfterForm (Converted raw refs) form) terminal) }
{
    match terminal {
        Terminal::Colon(_pos) => Ok(outside(State::NeedSig(Signing::Conversion(raw, refs, form)))),
        other => match with_reference(refs, form) {
            Ok(refs) => after_converted(alloc, raw, refs, other),
            Err(error) => Err(let_go(error, (raw, other))),
        },
    }
}

// A reference of a conversion is read, the last of these.
#[tactic(auto, using(crate::proofs::Defaults::other_converted))]
pub(crate) fn after_converted(
    alloc: Global,
    raw: Draft,
    refs: RawOpRefs,
    terminal: Terminal,
) -> Result<Outcome, Memory>
    ensures { Settles result (step_state (State.AfterConverted raw refs) terminal) }
{
    match terminal {
        Terminal::Comma => Ok(outside(State::NeedForm(Naming::Converted(raw, refs)))),
        Terminal::Exempting => Ok(outside(State::NeedExempted(raw, refs))),
        other => match with_converted(alloc, raw, refs) {
            Ok(raw) => Ok(begin_conversion(alloc, raw, other)),
            Err(error) => Err(let_go(error, other)),
        },
    }
}

// `exempting` is read.
#[tactic(auto, using(crate::proofs::Defaults::other_exempted))]
pub(crate) fn need_exempted(
    alloc: Global,
    raw: Draft,
    refs: RawOpRefs,
    terminal: Terminal,
) -> Result<Outcome, Memory>
    ensures { Settles result (step_state (State.NeedExempted raw refs) terminal) }
{
    match terminal {
        Terminal::ForAll => {
            let scope = VariablesFor::Exempted(raw, refs);
            Ok(outside(State::NeedVariable(scope, Sequence::new(alloc))))
        }
        other => {
            let conversion = open_conversion(alloc, raw, refs, Sequence::new(alloc));
            begin_exempted(alloc, conversion, other)
        }
    }
}

// The first token of a term that is exempted.
pub(crate) fn begin_exempted(
    alloc: Global,
    conversion: OpenConversion,
    terminal: Terminal,
) -> Result<Outcome, Memory>
    ensures { Settles result (step_state (State.NeedFurtherExempted conversion) terminal) }
{
    let frame = Frame::InExempted(position_of(&terminal), conversion);
    match Stack::new(alloc).with(frame) {
        Ok(stack) => begin_term(terminal, stack),
        Err(error) => Err(let_go(error, terminal)),
    }
}

// A term that is exempted is read.
pub(crate) fn in_exempted(
    alloc: Global,
    pos: Pos,
    conversion: OpenConversion,
    term: RawTerm,
    terminal: Terminal,
) -> Result<Outcome, Memory>
    ensures outcome { (frames : List Frame)
        → Settles result (hand_over term (InExempted pos conversion ∷ frames) terminal) }
    ensures frames { (frames : List Frame) → IfOk result (Leaves frames) }
{
    let conversion = match with_exempted(conversion, formula_of(term, pos)) {
        Ok(conversion) => conversion,
        Err(error) => return Err(let_go(error, terminal)),
    };
    match terminal {
        Terminal::Comma => Ok(outside(State::NeedFurtherExempted(conversion))),
        other => match close_conversion(conversion) {
            Ok(raw) => Ok(begin_conversion(alloc, raw, other)),
            Err(error) => Err(let_go(error, other)),
        },
    }
}
