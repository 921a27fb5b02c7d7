ghost use Rattle.std.specs.Prelude.{◌≡◌, ◌++◌, ◌∷◌, [], IfOk, None};
ghost use Rattle.larch_grammar.specs.Composition.{with_actual};
ghost use Rattle.larch_grammar.specs.Machine.{end_marks, hand_sig};
ghost use Rattle.larch_grammar.specs.Traits.{with_declaration};
ghost use Rattle.larch_grammar.specs.declared.machine.Naming.TheVariants.{Declared, Lone, Referred};
ghost use Rattle.larch_syntax_heads.specs.Outcome.{Settles, outcome, settle, step_state};

use crate::conversions::after_converted_form;
use crate::items::begin_item;
use larch_base::{Memory, Pos, Sequence, let_go};
use larch_grammar::{
    Bracket, Clause, Draft, FormBracket, Naming, OpenRef, Signing, State, Terminal, Whole,
    bracket_form, field_form, infix_form, plain_form, postfix_form, prefix_form, with_actual,
    with_clause, with_declaration, with_reference, with_word,
};
use larch_raw::{
    RawActual, RawDecl, RawForm, RawForms, RawOpRef, RawOpRefs, RawSig, RawWord, RawWords,
};
use larch_syntax_heads::{
    Outcome, after_formal, after_plain, after_renamed, after_renaming, outside, stops,
};
use std::alloc::Global;

// The first token of a form.
pub(crate) fn begin_form(naming: Naming, terminal: Terminal) -> Outcome
    ensures { settle result ≡ step_state (State.NeedForm naming) terminal }
{
    match terminal {
        Terminal::Word(word) => outside(State::AfterForm(naming, plain_form(word))),
        Terminal::Symbol(symbol) => outside(State::AfterSymbolForm(naming, symbol)),
        Terminal::Dot(pos) => outside(State::AfterDotForm(naming, pos)),
        Terminal::Marker(pos) => outside(State::AfterLeadingMarker(naming, pos)),
        Terminal::OpenBracket(bracket, pos) => {
            outside(State::AfterFormBracket(FormBracket {
                naming,
                behind: false,
                bracket,
                pos,
            }))
        }
        other => let_go(stops(), (naming, other)),
    }
}

// A symbol that begins a form is read.
pub(crate) fn after_symbol_form(
    alloc: Global,
    naming: Naming,
    symbol: RawWord,
    terminal: Terminal,
) -> Result<Outcome, Memory>
    ensures { Settles result (step_state (State.AfterSymbolForm naming symbol) terminal) }
{
    match terminal {
        Terminal::Marker(_pos) => match prefix_form(alloc, symbol) {
            Ok(form) => Ok(outside(State::AfterForm(naming, form))),
            Err(error) => Err(let_go(error, naming)),
        },
        other => match infix_form(alloc, symbol.pos, symbol) {
            Ok(form) => after_form(alloc, naming, form, other),
            Err(error) => Err(let_go(error, (naming, other))),
        },
    }
}

// A `.` of a form that begins there is read.
pub(crate) fn after_dot_form(
    alloc: Global,
    naming: Naming,
    pos: Pos,
    terminal: Terminal,
) -> Result<Outcome, Memory>
    ensures { Settles result (step_state (State.AfterDotForm naming pos) terminal) }
{
    match terminal {
        Terminal::Word(word) => match field_form(alloc, pos, word) {
            Ok(form) => Ok(outside(State::AfterForm(naming, form))),
            Err(error) => Err(let_go(error, naming)),
        },
        other => Ok(let_go(stops(), (naming, other))),
    }
}

// A `__` that begins a form is read.
pub(crate) fn after_leading_marker(naming: Naming, pos: Pos, terminal: Terminal) -> Outcome
    ensures { settle result ≡ step_state (State.AfterLeadingMarker naming pos) terminal }
{
    match terminal {
        Terminal::Dot(_dot) => outside(State::AfterDotForm(naming, pos)),
        Terminal::Symbol(symbol) => outside(State::AfterMarkerSymbol(naming, pos, symbol)),
        Terminal::OpenBracket(bracket, _open) => {
            outside(State::AfterFormBracket(FormBracket {
                naming,
                behind: true,
                bracket,
                pos,
            }))
        }
        other => let_go(stops(), (naming, other)),
    }
}

// A `__` and a symbol are read.
pub(crate) fn after_marker_symbol(
    alloc: Global,
    naming: Naming,
    pos: Pos,
    symbol: RawWord,
    terminal: Terminal,
) -> Result<Outcome, Memory>
    ensures { Settles result (step_state (State.AfterMarkerSymbol naming pos symbol) terminal) }
{
    match terminal {
        Terminal::Marker(_behind) => match infix_form(alloc, pos, symbol) {
            Ok(form) => Ok(outside(State::AfterForm(naming, form))),
            Err(error) => Err(let_go(error, naming)),
        },
        other => match postfix_form(alloc, pos, symbol) {
            Ok(form) => after_form(alloc, naming, form, other),
            Err(error) => Err(let_go(error, (naming, other))),
        },
    }
}

// The bracket of a form ends, behind so many markers.
fn end_marks(
    alloc: Global,
    form: FormBracket,
    markers: u32,
    terminal: Terminal,
) -> Result<Outcome, Memory>
    ensures { Settles result (outcome (end_marks form.naming form.behind form.bracket markers form.pos terminal) None) }
{
    let FormBracket {
        naming,
        behind,
        bracket,
        pos,
    } = form;
    match (bracket, terminal) {
        (Bracket::Square, Terminal::CloseBracket(Bracket::Square))
        | (Bracket::Curly, Terminal::CloseBracket(Bracket::Curly)) => {
            match bracket_form(alloc, behind, bracket, markers, pos) {
                Ok(form) => Ok(outside(State::AfterForm(naming, form))),
                Err(error) => Err(let_go(error, naming)),
            }
        }
        (_, other) => Ok(let_go(stops(), (naming, other))),
    }
}

// A bracket of a form is open.
pub(crate) fn after_form_bracket(
    alloc: Global,
    form: FormBracket,
    terminal: Terminal,
) -> Result<Outcome, Memory>
    ensures { Settles result (step_state (State.AfterFormBracket form) terminal) }
{
    match terminal {
        Terminal::Marker(_marker) => Ok(outside(State::AfterBracketMarker(form, 1))),
        other => end_marks(alloc, form, 0, other),
    }
}

// So many markers stand in it.
pub(crate) fn after_bracket_marker(
    alloc: Global,
    form: FormBracket,
    markers: u32,
    terminal: Terminal,
) -> Result<Outcome, Memory>
    ensures { Settles result (step_state (State.AfterBracketMarker form markers) terminal) }
{
    match terminal {
        Terminal::Comma => Ok(outside(State::NeedBracketMarker(form, markers))),
        other => end_marks(alloc, form, markers, other),
    }
}

// A `,` behind them is read.
pub(crate) fn need_bracket_marker(
    form: FormBracket,
    markers: u32,
    terminal: Terminal,
) -> Result<Outcome, Memory>
    ensures { Settles result (step_state (State.NeedBracketMarker form markers) terminal) }
{
    match terminal {
        Terminal::Marker(_marker) => match markers.checked_add(1) {
            Some(more) => Ok(outside(State::AfterBracketMarker(form, more))),
            None => Err(let_go(Memory, form)),
        },
        other => Ok(let_go(stops(), (form, other))),
    }
}

// A form is read.
pub(crate) fn after_form(
    alloc: Global,
    naming: Naming,
    form: RawForm,
    terminal: Terminal,
) -> Result<Outcome, Memory>
    ensures { Settles result (step_state (State.AfterForm naming form) terminal) }
{
    match naming {
        Naming::Declared(raw, forms) => after_declared(raw, forms, form, terminal),
        Naming::Referred(clause, refs) => after_referred(alloc, clause, refs, form, terminal),
        Naming::Formal(name, formals) => after_formal(name, formals, form, terminal),
        Naming::Actual(reference) => after_plain(reference, form, terminal),
        Naming::Renaming(reference) => Ok(after_renaming(reference, form, terminal)),
        Naming::Renamed(reference, renamed) => after_renamed(reference, renamed, form, terminal),
        Naming::Lone => Ok(after_lone(form, terminal)),
        Naming::Converted(raw, refs) => after_converted_form(alloc, raw, refs, form, terminal),
    }
}

// The form of a reference by itself is read.
fn after_lone(form: RawForm, terminal: Terminal) -> Outcome
    ensures { settle result ≡ step_state (State.AfterForm Lone form) terminal }
{
    match terminal {
        Terminal::Colon(_pos) => outside(State::NeedSig(Signing::LoneForm(form))),
        other => {
            let reference = RawOpRef { form, sig: None };
            let_go(Outcome::Stops(Some(Whole::Reference(reference))), other)
        }
    }
}

// A form of a declaration is read.
fn after_declared(
    raw: Draft,
    forms: RawForms,
    form: RawForm,
    terminal: Terminal,
) -> Result<Outcome, Memory>
    ensures { Settles result (step_state (State.AfterForm (Declared raw forms) form) terminal) }
{
    let forms = match with_form(forms, form) {
        Ok(forms) => forms,
        Err(error) => return Err(let_go(error, (raw, terminal))),
    };
    match terminal {
        Terminal::Comma => Ok(outside(State::NeedForm(Naming::Declared(raw, forms)))),
        Terminal::Colon(_pos) => Ok(outside(State::NeedSig(Signing::Declaration(raw, forms)))),
        other => Ok(let_go(stops(), (raw, forms, other))),
    }
}

// The forms with one more.
fn with_form(forms: RawForms, form: RawForm) -> Result<RawForms, Memory>
    ensures { IfOk result (λ more. more ≡ forms ++ form ∷ []) }
{
    let mut forms = forms;
    forms.push(form)?;
    Ok(forms)
}

// A form of a reference is read.
#[tactic(auto, using(crate::proofs::Defaults::other_referred))]
fn after_referred(
    alloc: Global,
    clause: Clause,
    refs: RawOpRefs,
    form: RawForm,
    terminal: Terminal,
) -> Result<Outcome, Memory>
    ensures { Settles result (step_state (State.AfterForm (Referred clause refs) form) terminal) }
{
    match terminal {
        Terminal::Colon(_pos) => Ok(outside(State::NeedSig(Signing::Reference(
            clause, refs, form,
        )))),
        other => match with_reference(refs, form) {
            Ok(refs) => after_operator_ref(alloc, clause, refs, other),
            Err(error) => Err(let_go(error, (clause, other))),
        },
    }
}

// A reference is read, the last of these.
#[tactic(auto, using(crate::proofs::Defaults::other_reference))]
pub(crate) fn after_operator_ref(
    alloc: Global,
    clause: Clause,
    refs: RawOpRefs,
    terminal: Terminal,
) -> Result<Outcome, Memory>
    ensures { Settles result (step_state (State.AfterOperatorRef clause refs) terminal) }
{
    match terminal {
        Terminal::Comma => Ok(outside(State::NeedForm(Naming::Referred(clause, refs)))),
        Terminal::Semicolon => {
            let raw = with_clause(clause, refs)?;
            Ok(outside(State::InItems(raw)))
        }
        other => match with_clause(clause, refs) {
            Ok(raw) => begin_item(alloc, raw, other),
            Err(error) => Err(let_go(error, other)),
        },
    }
}

// A signature is needed.
pub(crate) fn need_sig(
    alloc: Global,
    signing: Signing,
    terminal: Terminal,
) -> Result<Outcome, Memory>
    ensures { Settles result (step_state (State.NeedSig signing) terminal) }
{
    match terminal {
        Terminal::Word(word) => match with_word(Sequence::new(alloc), word) {
            Ok(sorts) => Ok(outside(State::AfterSort(signing, sorts))),
            Err(error) => Err(let_go(error, signing)),
        },
        Terminal::Arrow => Ok(outside(State::NeedRange(signing, Sequence::new(alloc)))),
        other => Ok(let_go(stops(), (signing, other))),
    }
}

// A sort of a domain is read.
pub(crate) fn after_sort(signing: Signing, sorts: RawWords, terminal: Terminal) -> Outcome
    ensures { settle result ≡ step_state (State.AfterSort signing sorts) terminal }
{
    match terminal {
        Terminal::Comma => outside(State::NeedSort(signing, sorts)),
        Terminal::Arrow => outside(State::NeedRange(signing, sorts)),
        other => let_go(stops(), (signing, sorts, other)),
    }
}

// A `,` behind a sort is read.
pub(crate) fn need_sort(
    signing: Signing,
    sorts: RawWords,
    terminal: Terminal,
) -> Result<Outcome, Memory>
    ensures { Settles result (step_state (State.NeedSort signing sorts) terminal) }
{
    match terminal {
        Terminal::Word(word) => match with_word(sorts, word) {
            Ok(sorts) => Ok(outside(State::AfterSort(signing, sorts))),
            Err(error) => Err(let_go(error, signing)),
        },
        other => Ok(let_go(stops(), (signing, sorts, other))),
    }
}

// The `->` of a signature is read.
pub(crate) fn need_range(
    signing: Signing,
    domain: RawWords,
    terminal: Terminal,
) -> Result<Outcome, Memory>
    ensures { Settles result (step_state (State.NeedRange signing domain) terminal) }
{
    match terminal {
        Terminal::Word(range) => {
            let after = hand_sig(signing, RawSig { domain, range })?;
            Ok(outside(after))
        }
        other => Ok(let_go(stops(), (signing, domain, other))),
    }
}

// A signature is read: what waits for it takes it.
fn hand_sig(signing: Signing, sig: RawSig) -> Result<State, Memory>
    ensures { IfOk result (λ state. state ≡ hand_sig signing sig) }
{
    match signing {
        Signing::Declaration(raw, forms) => take_declaration(raw, RawDecl { forms, sig }),
        Signing::Reference(clause, refs, form) => {
            let sig = Some(sig);
            take_reference(clause, refs, RawOpRef { form, sig })
        }
        Signing::Replacement(reference, renamed, form) => {
            take_replacement(reference, RawActual::Replace(renamed, form, Some(sig)))
        }
        Signing::Conversion(raw, refs, form) => {
            let sig = Some(sig);
            take_conversion(raw, refs, RawOpRef { form, sig })
        }
        Signing::LoneForm(form) => {
            let sig = Some(sig);
            Ok(State::AfterLone(RawOpRef { form, sig }))
        }
    }
}

// A declaration is read.
fn take_declaration(raw: Draft, declaration: RawDecl) -> Result<State, Memory>
    ensures { IfOk result (λ state. state ≡ State.InPart (with_declaration raw declaration)) }
{
    let raw = with_declaration(raw, declaration)?;
    Ok(State::InPart(raw))
}

// A replacement of an actual is read.
fn take_replacement(reference: OpenRef, actual: RawActual) -> Result<State, Memory>
    ensures { IfOk result (λ state. state ≡ State.AfterRename (with_actual reference actual)) }
{
    let reference = with_actual(reference, actual)?;
    Ok(State::AfterRename(reference))
}

// A reference of a clause with its signature is read.
fn take_reference(clause: Clause, refs: RawOpRefs, reference: RawOpRef) -> Result<State, Memory>
    ensures { IfOk result (λ state. state ≡ State.AfterOperatorRef clause (refs ++ reference ∷ [])) }
{
    match with_signed(refs, reference) {
        Ok(refs) => Ok(State::AfterOperatorRef(clause, refs)),
        Err(error) => Err(let_go(error, clause)),
    }
}

// A reference of a conversion with its signature is read.
fn take_conversion(raw: Draft, refs: RawOpRefs, reference: RawOpRef) -> Result<State, Memory>
    ensures { IfOk result (λ state. state ≡ State.AfterConverted raw (refs ++ reference ∷ [])) }
{
    match with_signed(refs, reference) {
        Ok(refs) => Ok(State::AfterConverted(raw, refs)),
        Err(error) => Err(let_go(error, raw)),
    }
}

// The references with one more.
fn with_signed(refs: RawOpRefs, reference: RawOpRef) -> Result<RawOpRefs, Memory>
    ensures { IfOk result (λ more. more ≡ refs ++ reference ∷ []) }
{
    let mut refs = refs;
    refs.push(reference)?;
    Ok(refs)
}
