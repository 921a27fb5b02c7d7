ghost use Rattle.std.specs.Prelude.{◌≡◌, ◌∷◌, [], cond, true, IfOk, None, Some};
ghost use Rattle.larch_grammar.specs.Machine.{after_word, behind_refs, open_item, word_frames};
ghost use Rattle.larch_grammar.specs.Terminal.{ends_reference};
ghost use Rattle.larch_grammar.specs.declared.machine.Frame.TheVariants.{InFields};
ghost use Rattle.larch_grammar.specs.declared.machine.Waiting.TheVariants.{Item};
ghost use Rattle.larch_grammar.specs.declared.machine.Whole.TheVariants.{Trait as whole_trait};
ghost use Rattle.larch_syntax_heads.specs.Outcome.{Settles, outcome, settle, step_state};
ghost use Rattle.larch_syntax.specs.Implied.{without_whole};

use crate::begin::word_frames;
use crate::hand::{after_word, hand};
use crate::items::{begin_item, clause_word, first_of_item};
use larch_base::{Memory, let_go};
use larch_grammar::{
    Draft, Frame, Listing, Naming, RefKind, Stack, State, Terminal, call_tree, close_ref,
    ends_reference, next_kind, no_terms, open_ref,
};
use larch_grammar_law::Mark;
use larch_raw::{RawTerms, RawWord};
use larch_syntax_heads::{Outcome, after_head, at_head, ends, outside, stops};
use std::alloc::Global;

// The name of a trait that is referred to is read.
#[tactic(auto, using(crate::proofs::Defaults::other_ref_name))]
pub(crate) fn after_ref_name(
    alloc: Global,
    raw: Draft,
    kind: RefKind,
    name: RawWord,
    terminal: Terminal,
) -> Result<Outcome, Memory>
    ensures { Settles result (step_state (State.AfterRefName raw kind name) terminal) }
{
    let reference = open_ref(alloc, raw, kind, name);
    match terminal {
        Terminal::Open(_pos) => Ok(outside(State::NeedForm(Naming::Actual(reference)))),
        other => match close_ref(reference) {
            Ok(raw) => after_trait_ref(alloc, raw, kind, other),
            Err(error) => Err(let_go(error, other)),
        },
    }
}

// A reference is read.
#[tactic(auto, using(crate::proofs::Defaults::other_ref))]
pub(crate) fn after_trait_ref(
    alloc: Global,
    raw: Draft,
    kind: RefKind,
    terminal: Terminal,
) -> Result<Outcome, Memory>
    ensures { Settles result (step_state (State.AfterTraitRef raw kind) terminal) }
{
    match terminal {
        Terminal::Comma => Ok(outside(State::NeedRef(raw, next_kind(kind)))),
        other => behind_refs(alloc, raw, kind, other),
    }
}

// What follows references: for the first one of an implied part a token that ends a list of them.
fn behind_refs(
    alloc: Global,
    raw: Draft,
    kind: RefKind,
    terminal: Terminal,
) -> Result<Outcome, Memory>
    ensures { Settles result (outcome (behind_refs kind raw terminal) (Some (whole_trait raw))) }
{
    match kind {
        RefKind::Included | RefKind::Assumed => Ok(after_head(alloc, raw, terminal)),
        RefKind::First => {
            if ends_reference(&terminal) {
                begin_item(alloc, raw, terminal)
            } else {
                Ok(ends(raw))
            }
        }
        RefKind::Further => begin_item(alloc, raw, terminal),
    }
}

// `implies` is read, behind which no references stand.
#[tactic(auto, using(crate::proofs::Defaults::other_implies))]
pub(crate) fn after_implies(
    alloc: Global,
    raw: Draft,
    terminal: Terminal,
) -> Result<Outcome, Memory>
    ensures { Settles result (step_state (State.AfterImplies raw) terminal) }
{
    match terminal {
        Terminal::Word(word) => Ok(at_head(State::ImpliedWord(raw, word))),
        other => begin_item(alloc, raw, other),
    }
}

// What a token does, where no whole ends before it.
fn forgetting(alloc: Global, found: Outcome) -> Result<Outcome, Memory>
    ensures { IfOk result (λ answer. answer ≡ without_whole (settle found)) }
{
    let found = match found {
        Outcome::Handed(term, stack, terminal) => hand(alloc, term, stack, terminal)?,
        other => other,
    };
    Ok(forget(found))
}

// The same, where no term is handed on.
fn forget(found: Outcome) -> Outcome
    ensures { result ≡ without_whole found }
{
    match found {
        Outcome::Stops(_whole) => stops(),
        other => other,
    }
}

// The same and a word are read: it begins no references.
#[tactic(auto, using(crate::proofs::Defaults::other_implied))]
pub(crate) fn implied_word(
    alloc: Global,
    raw: Draft,
    word: RawWord,
    terminal: Terminal,
) -> Result<Outcome, Memory>
    ensures { Settles result (step_state (State.ImpliedWord raw word) terminal) }
{
    match terminal {
        Terminal::Generated | Terminal::Partitioned => Ok(clause_word(raw, word, terminal)),
        Terminal::Open(_pos) => {
            let arguments = Frame::InList(Listing::First(raw, word), no_terms(alloc));
            let stack = Stack::new(alloc).with(arguments)?;
            Ok(Outcome::Taken(Mark::Opens(false), State::NeedTerm(stack)))
        }
        other => behind_word(alloc, raw, word, other),
    }
}

// The word stands alone.
fn behind_word(
    alloc: Global,
    raw: Draft,
    word: RawWord,
    terminal: Terminal,
) -> Result<Outcome, Memory>
    ensures { Settles result (outcome (cond (ends_reference terminal) None
        (after_word true word (word_frames word (Item (open_item raw [] []))) terminal)) None) }
{
    if ends_reference(&terminal) {
        return Ok(let_go(stops(), (raw, word, terminal)));
    }
    let frames = match word_frames(alloc, &word, first_of_item(alloc, raw)) {
        Ok(frames) => frames,
        Err(error) => return Err(let_go(error, (word, terminal))),
    };
    let found = after_word(alloc, word, frames, terminal)?;
    forgetting(alloc, found)
}

// The same and its arguments are read.
pub(crate) fn behind_first(
    alloc: Global,
    raw: Draft,
    word: RawWord,
    terms: RawTerms,
    terminal: Terminal,
) -> Result<Outcome, Memory>
    ensures { Settles result (step_state (State.BehindFirst raw word terms) terminal) }
{
    if ends_reference(&terminal) {
        return Ok(let_go(stops(), (raw, word, terms, terminal)));
    }
    let frames = match first_frames(alloc, &word, raw) {
        Ok(frames) => frames,
        Err(error) => return Err(let_go(error, (word, terms, terminal))),
    };
    let found = hand(alloc, call_tree(word, terms), frames, terminal)?;
    Ok(forget(found))
}

// The frames of a first equation that begins with a word and its arguments.
fn first_frames(alloc: Global, word: &RawWord, raw: Draft) -> Result<Stack, Memory>
    ensures { IfOk result (λ frames. frames
        ≡ InFields ∷ word_frames word.now (Item (open_item raw [] []))) }
{
    let frames = word_frames(alloc, word, first_of_item(alloc, raw))?;
    let frames = frames.with(Frame::InFields)?;
    Ok(frames)
}
