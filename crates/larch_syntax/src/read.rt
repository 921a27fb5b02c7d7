ghost use Rattle.std.specs.Prelude.{◌≡◌, ◌+◌, ◌≤◌, drop, length, false, Err, IfOk, IfSome};
ghost use Rattle.larch_base.specs.Answering.{Answers};
ghost use Rattle.larch_grammar_law.specs.Answer.{at_end, at_front};
ghost use Rattle.larch_grammar_law.specs.Mark.{admission};
ghost use Rattle.larch_grammar.specs.Answers.{MeansTrait, trait_by};
ghost use Rattle.larch_grammar.specs.Machine.{as_equation, as_reference, as_trait};
ghost use Rattle.larch_syntax.specs.Read.{ClaimHolds, MeansFrom, MeansReference, fault_at, from_there, longest};
ghost use Rattle.larch_syntax.specs.Read.{reference_of, taken_at, term_of, trait_of, with_fault};
ghost use Rattle.larch_syntax.specs.Refusal.{cause};

use crate::refusal::{SyntaxRefusal, refusal_of};
use crate::refused::{position_of, which_refusal};
use crate::step::{last, step};
use larch_base::{Memory, Pos};
use larch_grammar::{Naming, State, Waiting, Whole, terminal_of};
use larch_grammar_law::{Mark, admit};
use larch_lexer::{Token, Tokens};
use larch_raw::{RawEquation, RawOpRef, RawTrait};
use larch_syntax_heads::Outcome;
use std::alloc::Global;

/// The raw trait that these tokens are, all of them; or the first refusal. Of several that stand at one token the order
/// is MIXED, SYNTAX, DEEP, SIZE. One pass over the tokens, without recursion; where it is refused a second one, with
/// references behind `implies`.
#[tactic(auto, using(crate::proofs::Either::first_read, crate::proofs::Told::trait_said))]
pub fn read_trait(alloc: Global, tokens: &Tokens) -> Result<RawTrait, SyntaxRefusal>
    ensures answer { Answers cause result (trait_of tokens.now) }

    // The grammar says the same without a machine.
    ensures grammar { ClaimHolds (MeansTrait tokens.now) result }
{
    match trait_by_steps(alloc, false, tokens) {
        Err(item) => or_references(alloc, tokens, item),
        read => read,
    }
}

// The trait, where one of which an item follows `implies` is refused so.
#[tactic(auto, using(crate::proofs::Either::second_read, crate::proofs::Either::both_refused))]
fn or_references(
    alloc: Global,
    tokens: &Tokens,
    item: SyntaxRefusal,
) -> Result<RawTrait, SyntaxRefusal>
    requires { IfSome (cause item) (λ fault. with_fault (trait_by false tokens.now) ≡ Err fault) }
    ensures { Answers cause result (trait_of tokens.now) }
{
    let Some(_position) = position_of(item) else {
        return Err(SyntaxRefusal::Memory);
    };
    match trait_by_steps(alloc, true, tokens) {
        Err(list) => Err(which_refusal(tokens, item, list)),
        read => read,
    }
}

// The trait where references follow `implies` or not, by the machine.
fn trait_by_steps(alloc: Global, lists: bool, tokens: &Tokens) -> Result<RawTrait, SyntaxRefusal>
    ensures { Answers cause result (with_fault (trait_by lists tokens.now)) }
{
    let Front {
        whole,
        taken: _,
        next,
    } = longest_front(alloc, lists, tokens.as_slice(), State::Start)?;
    match next {
        Some(pos) => Err(SyntaxRefusal::Syntax(pos)),
        None => whole_trait(whole, tokens.end()),
    }
}

// The whole as a trait, or SYNTAX at the end of the text.
fn whole_trait(whole: Option<Whole>, end: Pos) -> Result<RawTrait, SyntaxRefusal>
    ensures { Answers cause result (with_fault (at_end end (as_trait whole))) }
{
    match whole {
        Some(Whole::Trait(draft)) => Ok(draft.into_raw()),
        _ => Err(SyntaxRefusal::Syntax(end)),
    }
}

/// The raw equation at the front of the tokens from this one on, and the number of the token behind it, both counted
/// from 0; or the first refusal, as of `read_trait`. The equation ends where no equation goes on so: before `then` in
/// `x + y then z`, and before the second `==` in `x == y == z`.
pub fn read_term(
    alloc: Global,
    tokens: &Tokens,
    from: u32,
) -> Result<(RawEquation, u32), SyntaxRefusal>
    requires { from ≤ length tokens.now.tokens }
    ensures answer { Answers cause result (term_of tokens.now from) }

    // The grammar says the same without a machine.
    ensures grammar { ClaimHolds (MeansFrom tokens.now from) result }
{
    let Front { whole, taken, next } = front_from(
        alloc,
        tokens,
        from,
        State::NeedEquation(Waiting::Alone),
    )?;
    tree_from(
        from,
        as_equation(whole),
        taken,
        next.unwrap_or(tokens.end()),
    )
}

// The whole as an equation by itself.
fn as_equation(whole: Option<Whole>) -> Option<RawEquation>
    ensures { result ≡ as_equation whole }
{
    match whole {
        Some(Whole::Equation(equation)) => Some(equation),
        _ => None,
    }
}

/// The raw reference to operators at the front of the tokens from this one on, and the number of the token behind it,
/// both counted from 0; or the refusal, which is SYNTAX. The reference ends where no reference goes on so: before `>`
/// in `f : S -> T > g`, and before `+` in `__ ! + x`.
pub fn read_reference(
    alloc: Global,
    tokens: &Tokens,
    from: u32,
) -> Result<(RawOpRef, u32), SyntaxRefusal>
    requires { from ≤ length tokens.now.tokens }
    ensures answer { Answers cause result (reference_of tokens.now from) }

    // The grammar says the same without a machine.
    ensures grammar { ClaimHolds (MeansReference tokens.now from) result }
{
    let Front { whole, taken, next } = front_from(
        alloc,
        tokens,
        from,
        State::NeedForm(Naming::Lone),
    )?;
    tree_from(
        from,
        as_reference(whole),
        taken,
        next.unwrap_or(tokens.end()),
    )
}

// The whole as a reference by itself.
fn as_reference(whole: Option<Whole>) -> Option<RawOpRef>
    ensures { result ≡ as_reference whole }
{
    match whole {
        Some(Whole::Reference(reference)) => Some(reference),
        _ => None,
    }
}

// A tree of so many tokens from this one on, with the number of the token after it; or SYNTAX there.
fn tree_from<T: Drop>(
    from: u32,
    tree: Option<T>,
    taken: usize,
    pos: Pos,
) -> Result<(T, u32), SyntaxRefusal>
    ensures { Answers cause result (from_there from (with_fault (at_front pos taken tree))) }
{
    match tree {
        Some(tree) => Ok((tree, number_after(from, taken)?)),
        None => Err(SyntaxRefusal::Syntax(pos)),
    }
}

// The number of the token so many after this one.
fn number_after(from: u32, taken: usize) -> Result<u32, Memory>
    ensures { IfOk result (λ next. next ≡ from + taken) }
{
    let taken = u32::try_from(taken).map_err(|_| Memory)?;
    from.checked_add(taken).ok_or(Memory)
}

/// The longest front of tokens with which a text goes on.
#[derive(Drop)]
pub(crate) struct Front {
    /// The whole that ends there, if there is one.
    whole: Option<Whole>,
    /// Its number of tokens.
    taken: usize,
    /// Where the token after it stands, if there is one.
    next: Option<Pos>,
}

// The longest front of the tokens from this one on, from a state on.
fn front_from(
    alloc: Global,
    tokens: &Tokens,
    from: u32,
    state: State,
) -> Result<Front, SyntaxRefusal>
    requires { from ≤ length tokens.now.tokens }
    ensures { Answers cause result (longest false 0 0 state (drop from tokens.now.tokens)) }
{
    longest_front(alloc, false, &tokens.as_slice()[from as usize..], state)
}

// The longest front of these tokens from a state on, where references follow `implies` or not.
fn longest_front(
    alloc: Global,
    lists: bool,
    tokens: &[Token],
    state: State,
) -> Result<Front, SyntaxRefusal>
    ensures { Answers cause result (longest lists 0 0 state tokens.now) }
{
    let mut state = state;
    let mut heads: u32 = 0;
    for (taken, token) in tokens.iter().enumerate() {
        match take(alloc, lists, heads, state, token)? {
            Taken::On(more, after) => {
                heads = more;
                state = after;
            }
            Taken::Stops(whole) => return Ok(Front {
                whole,
                taken,
                next: Some(token.pos),
            }),
        }
    }
    Ok(Front {
        whole: last(alloc, state)?,
        taken: tokens.len(),
        next: None,
    })
}

/// What a token does behind so many head tokens.
#[derive(Drop)]
pub(crate) enum Taken {
    /// It is taken: the number of head tokens and the state behind it.
    On(u32, State),
    /// No text of the grammar goes on so: the whole that ends before it, if there is one.
    Stops(Option<Whole>),
}

// Takes a token in a state, or answers what is counted at it.
fn take(
    alloc: Global,
    lists: bool,
    heads: u32,
    state: State,
    token: &Token,
) -> Result<Taken, SyntaxRefusal>
    ensures { Answers cause result (taken_at lists heads state token.now) }
{
    let terminal = terminal_of(lists, token)?;
    match step(alloc, state, terminal)? {
        Outcome::Taken(mark, after) => {
            let more = count(heads, mark, token.pos)?;
            Ok(Taken::On(more, after))
        }
        Outcome::Stops(whole) => Ok(Taken::Stops(whole)),
        Outcome::Handed(_term, _stack, _terminal) => Ok(Taken::Stops(None)),
    }
}

// The number of head tokens behind a token with this mark, or the refusal by what is counted at it.
fn count(heads: u32, mark: Mark, pos: Pos) -> Result<u32, SyntaxRefusal>
    ensures { Answers cause result (fault_at pos (admission heads mark)) }
{
    admit(heads, mark).map_err(|flaw| refusal_of(flaw, pos))
}
