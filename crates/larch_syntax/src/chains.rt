ghost use Rattle.std.specs.Prelude.{◌≡◌, ◌∷◌, IfOk};
ghost use Rattle.larch_grammar.specs.Machine.{symbol_of};
ghost use Rattle.larch_grammar.specs.Terms.{chain_link};
ghost use Rattle.larch_grammar.specs.Trees.{chain_tree};
ghost use Rattle.larch_grammar.specs.declared.machine.Frame.TheVariants.{InConnectives, InEqualities, InInfixes};
ghost use Rattle.larch_grammar.specs.declared.machine.Frame.TheVariants.{InPostfixes, InStrays};
ghost use Rattle.larch_syntax_heads.specs.Outcome.{Leaves, Settles, hand_over};

use larch_base::{Memory, let_go};
use larch_grammar::{Frame, Link, Stack, State, Terminal, chain_tree, postfix_tree};
use larch_grammar_law::Mark;
use larch_raw::{RawTerm, RawWord};
use larch_syntax_heads::{Outcome, at_head};
use std::alloc::Global;

// Symbols behind a term with prefix symbols.
pub(crate) fn in_strays(
    alloc: Global,
    term: RawTerm,
    stack: Stack,
    terminal: Terminal,
) -> Result<Outcome, Memory>
    ensures outcome { Settles result (hand_over term (InStrays ∷ stack) terminal) }
    ensures frames { IfOk result (Leaves stack) }
{
    match terminal {
        Terminal::Symbol(symbol) => {
            let whole = postfix_tree(alloc, symbol, term)?;
            let stack = stack.with(Frame::InStrays)?;
            Ok(Outcome::Taken(Mark::Chained(true), State::Have(whole, stack)))
        }
        other => Ok(Outcome::Handed(term, stack, other)),
    }
}

// Postfix symbols may follow.
pub(crate) fn in_postfixes(
    alloc: Global,
    term: RawTerm,
    stack: Stack,
    terminal: Terminal,
) -> Result<Outcome, Memory>
    ensures outcome { Settles result (hand_over term (InPostfixes ∷ stack) terminal) }
    ensures frames { IfOk result (Leaves stack) }
{
    match terminal {
        Terminal::Symbol(symbol) => {
            let whole = postfix_tree(alloc, symbol, term)?;
            let stack = stack.with(Frame::InPostfixes)?;
            Ok(at_head(State::Have(whole, stack)))
        }
        other => Ok(Outcome::Handed(term, stack, other)),
    }
}

// A chain of infix symbols.
pub(crate) fn in_infixes(
    alloc: Global,
    link: Option<Link>,
    term: RawTerm,
    stack: Stack,
    terminal: Terminal,
) -> Result<Outcome, Memory>
    ensures outcome { Settles result (hand_over term (InInfixes link ∷ stack) terminal) }
    ensures frames { IfOk result (Leaves stack) }
{
    match (link, terminal) {
        (None, Terminal::Symbol(symbol)) => { Ok(at_head(State::AfterSymbol(symbol, term, stack))) }
        (None, other) => Ok(Outcome::Handed(term, stack, other)),
        (Some(link), Terminal::Symbol(symbol)) => {
            let (mark, link) = next_link(alloc, Some(link), term, symbol)?;
            let stack = stack.with(Frame::InInfixes(Some(link)))?;
            Ok(Outcome::Taken(mark, State::NeedPost(stack)))
        }
        (Some(link), other) => match chain_tree(alloc, Some(link), term) {
            Ok(whole) => Ok(Outcome::Handed(whole, stack, other)),
            Err(error) => Err(let_go(error, (stack, other))),
        },
    }
}

// What is counted at the next symbol of a chain, and the chain with it.
fn next_link(
    alloc: Global,
    link: Option<Link>,
    term: RawTerm,
    symbol: RawWord,
) -> Result<(Mark, Link), Memory>
    ensures mark { IfOk result (λ next. next.0 ≡ chain_link (symbol_of link) symbol) }
    ensures link { IfOk result (λ next. next.1 ≡ record { symbol = symbol; left = chain_tree link term }) }
{
    let mark = match &link {
        None => Mark::Head,
        Some(before) => Mark::Chained(before.symbol.name.bytes() != symbol.name.bytes()),
    };
    let left = chain_tree(alloc, link, term)?;
    Ok((mark, Link { symbol, left }))
}

// A chain of `=` and `~=`.
pub(crate) fn in_equalities(
    alloc: Global,
    link: Option<Link>,
    term: RawTerm,
    stack: Stack,
    terminal: Terminal,
) -> Result<Outcome, Memory>
    ensures outcome { Settles result (hand_over term (InEqualities link ∷ stack) terminal) }
    ensures frames { IfOk result (Leaves stack) }
{
    match terminal {
        Terminal::Equality(symbol) => {
            let (mark, link) = next_link(alloc, link, term, symbol)?;
            let stack = stack.with(Frame::InEqualities(Some(link)))?;
            Ok(Outcome::Taken(mark, State::NeedOperand(stack)))
        }
        other => match chain_tree(alloc, link, term) {
            Ok(whole) => Ok(Outcome::Handed(whole, stack, other)),
            Err(error) => Err(let_go(error, (stack, other))),
        },
    }
}

// A chain of connectives.
pub(crate) fn in_connectives(
    alloc: Global,
    link: Option<Link>,
    term: RawTerm,
    stack: Stack,
    terminal: Terminal,
) -> Result<Outcome, Memory>
    ensures outcome { Settles result (hand_over term (InConnectives link ∷ stack) terminal) }
    ensures frames { IfOk result (Leaves stack) }
{
    match terminal {
        Terminal::Connective(symbol) => {
            let (mark, link) = next_link(alloc, link, term, symbol)?;
            let stack = stack
                .with(Frame::InConnectives(Some(link)))?
                .with(Frame::InEqualities(None))?;
            Ok(Outcome::Taken(mark, State::NeedOperand(stack)))
        }
        other => match chain_tree(alloc, link, term) {
            Ok(whole) => Ok(Outcome::Handed(whole, stack, other)),
            Err(error) => Err(let_go(error, (stack, other))),
        },
    }
}
