ghost use Rattle.std.specs.Prelude.{◌≡◌, ◌∷◌, IfOk, None};
ghost use Rattle.larch_grammar.specs.Machine.{plainly};
ghost use Rattle.larch_grammar.specs.Trees.{bracket_tree, postfix_tree};
ghost use Rattle.larch_grammar.specs.declared.machine.Frame.TheVariants.{InFields, InIf, InLeft, InList};
ghost use Rattle.larch_grammar.specs.declared.machine.Frame.TheVariants.{InParentheses, InPostfixes, InThen};
ghost use Rattle.larch_syntax_heads.specs.Outcome.{Leaves, Settles, hand_over, outcome, settle, step_state};
ghost use Rattle.larch_syntax.specs.Hand.{hands_on};

use crate::begin::{begin_post, open_bracket, opens};
use crate::chains::{in_connectives, in_equalities, in_infixes, in_postfixes, in_strays};
use crate::conversions::in_exempted;
use crate::items::hand_equation;
use larch_base::{Memory, Pos, let_go};
use larch_grammar::{
    Bracket, Frame, Link, Listing, Stack, State, Terminal, Waiting, bracket_tree, call_tree,
    equation_of, field_tree, formula_of, if_tree, no_terms, postfix_tree, prefix_tree, qualified,
    with_term,
};
use larch_raw::{RawTerm, RawTerms, RawWord};
use larch_syntax_heads::{Outcome, at_head, plainly, stops};
use std::alloc::Global;

// A term is read, and a token stands behind it: the innermost frame takes the token, or hands on what it makes of
// the term.
#[tactic(auto, using(crate::proofs::Stacks::stack_of_top, crate::proofs::Stacks::stack_of_none, crate::proofs::Passing::handed_on, crate::proofs::Passing::not_handed))]
pub(crate) fn hand(
    alloc: Global,
    term: RawTerm,
    stack: Stack,
    terminal: Terminal,
) -> Result<Outcome, Memory>
    ensures { IfOk result (λ answer. answer ≡ hand_over term stack terminal) }
{
    let mut term = term;
    let mut stack = stack;
    let mut terminal = terminal;
    while let Some(frame) = stack.pop() {
        if hands_on(&frame, &terminal) {
            continue;
        }
        match pass(alloc, frame, term, stack, terminal) {
            Ok(Outcome::Handed(whole, frames, token)) => {
                term = whole;
                stack = frames;
                terminal = token;
            }
            found => return found,
        }
    }
    Ok(stops())
}

// Whether a frame hands on the term and the token as they are, as most frames do.
fn hands_on(frame: &Frame, terminal: &Terminal) -> bool
    ensures { result ≡ hands_on frame.now terminal.now }
{
    match (frame, terminal) {
        (Frame::InFields, Terminal::Dot(_) | Terminal::Colon(_) | Terminal::OpenBracket(_, _))
        | (Frame::InInfixes(None), Terminal::Symbol(_))
        | (Frame::InEqualities(None), Terminal::Equality(_))
        | (Frame::InConnectives(None), Terminal::Connective(_)) => false,
        (
            Frame::InFields
            | Frame::InInfixes(None)
            | Frame::InEqualities(None)
            | Frame::InConnectives(None),
            _,
        ) => true,
        _ => false,
    }
}

// The same for one frame.
#[inline(never)]
fn pass(
    alloc: Global,
    frame: Frame,
    term: RawTerm,
    stack: Stack,
    terminal: Terminal,
) -> Result<Outcome, Memory>
    ensures outcome { Settles result (hand_over term (frame ∷ stack) terminal) }
    ensures frames { IfOk result (Leaves stack) }
{
    match frame {
        Frame::InFields => Ok(in_fields(term, stack, terminal)),
        Frame::InStrays => in_strays(alloc, term, stack, terminal),
        Frame::Prefixed(symbol) => match prefix_tree(alloc, symbol, term) {
            Ok(whole) => Ok(Outcome::Handed(whole, stack, terminal)),
            Err(error) => Err(let_go(error, (stack, terminal))),
        },
        Frame::InPostfixes => in_postfixes(alloc, term, stack, terminal),
        Frame::InInfixes(link) => in_infixes(alloc, link, term, stack, terminal),
        Frame::InEqualities(link) => in_equalities(alloc, link, term, stack, terminal),
        Frame::InConnectives(link) => in_connectives(alloc, link, term, stack, terminal),
        Frame::InParentheses => Ok(in_parentheses(term, stack, terminal)),
        Frame::InList(listing, terms) => in_list(alloc, listing, terms, term, stack, terminal),
        Frame::InIf(pos) => in_if(pos, term, stack, terminal),
        Frame::InThen(pos, condition) => in_then(pos, condition, term, stack, terminal),
        Frame::InElse(pos, condition, first) => {
            match if_tree(alloc, pos, condition, first, term) {
                Ok(whole) => Ok(Outcome::Handed(whole, stack, terminal)),
                Err(error) => Err(let_go(error, (stack, terminal))),
            }
        }
        Frame::InLeft(pos, waiting) => in_left(alloc, pos, waiting, term, stack, terminal),
        Frame::InRight(pos, left, equates, waiting) => {
            let equation = equation_of(left, equates, term, pos);
            hand_equation(alloc, equation, waiting, terminal)
        }
        Frame::InExempted(pos, conversion) => in_exempted(alloc, pos, conversion, term, terminal),
    }
}

// Fields, brackets and a sort may follow.
fn in_fields(term: RawTerm, stack: Stack, terminal: Terminal) -> Outcome
    ensures outcome { settle result ≡ hand_over term (InFields ∷ stack) terminal }
    ensures frames { Leaves stack result }
{
    match terminal {
        Terminal::Dot(pos) => at_head(State::NeedField(term, pos, stack)),
        Terminal::Colon(pos) => at_head(State::NeedSortOf(term, pos, stack)),
        Terminal::OpenBracket(bracket, pos) => open_bracket(bracket, pos, Some(term), stack),
        other => Outcome::Handed(term, stack, other),
    }
}

// Inside parentheses.
fn in_parentheses(term: RawTerm, stack: Stack, terminal: Terminal) -> Outcome
    ensures outcome { settle result ≡ hand_over term (InParentheses ∷ stack) terminal }
    ensures frames { Leaves stack result }
{
    match terminal {
        Terminal::Close => plainly(State::Have(term, stack)),
        other => let_go(stops(), (term, stack, other)),
    }
}

// A list of terms: another one follows, or the list ends.
fn in_list(
    alloc: Global,
    listing: Listing,
    terms: RawTerms,
    term: RawTerm,
    stack: Stack,
    terminal: Terminal,
) -> Result<Outcome, Memory>
    ensures outcome { Settles result (hand_over term (InList listing terms ∷ stack) terminal) }
    ensures frames { IfOk result (Leaves stack) }
{
    let terms = match with_term(terms, term) {
        Ok(terms) => terms,
        Err(error) => return Err(let_go(error, (listing, stack, terminal))),
    };
    match (listing, terminal) {
        (listing, Terminal::Comma) => {
            let stack = stack.with(Frame::InList(listing, terms))?;
            Ok(plainly(State::NeedTerm(stack)))
        }
        (Listing::Call(word), Terminal::Close) => {
            Ok(plainly(State::Have(call_tree(word, terms), stack)))
        }
        (Listing::First(raw, word), Terminal::Close) => {
            Ok(plainly(State::BehindFirst(raw, word, terms)))
        }
        (
            Listing::Bracketed(Bracket::Square, front, pos),
            Terminal::CloseBracket(Bracket::Square),
        ) => { end_list(alloc, Bracket::Square, front, pos, terms, stack) }
        (Listing::Bracketed(Bracket::Curly, front, pos), Terminal::CloseBracket(Bracket::Curly)) =>
            { end_list(alloc, Bracket::Curly, front, pos, terms, stack) }
        (listing, other) => Ok(let_go(stops(), (listing, terms, stack, other))),
    }
}

// A bracket with these terms ends.
fn end_list(
    alloc: Global,
    bracket: Bracket,
    front: Option<RawTerm>,
    pos: Pos,
    terms: RawTerms,
    stack: Stack,
) -> Result<Outcome, Memory>
    ensures outcome { Settles result
        (outcome (plainly (State.Have (bracket_tree bracket front pos terms) stack)) None) }
    ensures frames { IfOk result (Leaves stack) }
{
    let whole = bracket_tree(alloc, bracket, front, pos, terms)?;
    Ok(plainly(State::Have(whole, stack)))
}

// `if`: its condition ends with `then`.
fn in_if(pos: Pos, term: RawTerm, stack: Stack, terminal: Terminal) -> Result<Outcome, Memory>
    ensures outcome { Settles result (hand_over term (InIf pos ∷ stack) terminal) }
    ensures frames { IfOk result (Leaves stack) }
{
    match terminal {
        Terminal::Then => {
            let stack = stack.with(Frame::InThen(pos, term))?;
            Ok(plainly(State::NeedTerm(stack)))
        }
        other => Ok(let_go(stops(), (term, stack, other))),
    }
}

// `then`: its part ends with `else`.
fn in_then(
    pos: Pos,
    condition: RawTerm,
    term: RawTerm,
    stack: Stack,
    terminal: Terminal,
) -> Result<Outcome, Memory>
    ensures outcome { Settles result (hand_over term (InThen pos condition ∷ stack) terminal) }
    ensures frames { IfOk result (Leaves stack) }
{
    match terminal {
        Terminal::Else => {
            let stack = stack.with(Frame::InElse(pos, condition, term))?;
            Ok(plainly(State::NeedTerm(stack)))
        }
        other => Ok(let_go(stops(), (condition, term, stack, other))),
    }
}

// The left side of an equation: `==` follows, or it is a formula.
fn in_left(
    alloc: Global,
    pos: Pos,
    waiting: Waiting,
    term: RawTerm,
    stack: Stack,
    terminal: Terminal,
) -> Result<Outcome, Memory>
    ensures outcome { Settles result (hand_over term (InLeft pos waiting ∷ stack) terminal) }
    ensures frames { IfOk result (Leaves stack) }
{
    match terminal {
        Terminal::Equates(equates) => {
            let stack = stack.with(Frame::InRight(pos, term, equates, waiting))?;
            Ok(at_head(State::NeedTerm(stack)))
        }
        other => hand_equation(alloc, formula_of(term, pos), waiting, other),
    }
}

// A `.` behind a term is read.
pub(crate) fn need_field(
    alloc: Global,
    term: RawTerm,
    pos: Pos,
    stack: Stack,
    terminal: Terminal,
) -> Result<Outcome, Memory>
    ensures { Settles result (step_state (State.NeedField term pos stack) terminal) }
{
    match terminal {
        Terminal::Word(word) => {
            let whole = field_tree(alloc, pos, word, term)?;
            let stack = stack.with(Frame::InFields)?;
            Ok(plainly(State::Have(whole, stack)))
        }
        other => Ok(let_go(stops(), (term, stack, other))),
    }
}

// A `:` behind a term is read.
pub(crate) fn need_sort_of(
    alloc: Global,
    term: RawTerm,
    pos: Pos,
    stack: Stack,
    terminal: Terminal,
) -> Result<Outcome, Memory>
    ensures { Settles result (step_state (State.NeedSortOf term pos stack) terminal) }
{
    match terminal {
        Terminal::Word(sort) => {
            let whole = qualified(alloc, term, sort, pos)?;
            Ok(plainly(State::Have(whole, stack)))
        }
        other => Ok(let_go(stops(), (term, stack, other))),
    }
}

// A word is read: its arguments begin, or it stands alone.
#[tactic(auto, using(crate::proofs::Defaults::other_word))]
pub(crate) fn after_word(
    alloc: Global,
    word: RawWord,
    stack: Stack,
    terminal: Terminal,
) -> Result<Outcome, Memory>
    ensures { Settles result (step_state (State.AfterWord word stack) terminal) }
{
    match terminal {
        Terminal::Open(_pos) => {
            let mark = opens(&stack);
            let fields = stack.with(Frame::InFields)?;
            let inside = fields.with(Frame::InList(Listing::Call(word), no_terms(alloc)))?;
            Ok(Outcome::Taken(mark, State::NeedTerm(inside)))
        }
        other => match stack.with(Frame::InFields) {
            Ok(stack) => Ok(Outcome::Handed(call_tree(word, no_terms(alloc)), stack, other)),
            Err(error) => Err(let_go(error, (word, other))),
        },
    }
}

// A term and a symbol are read: the symbol is infix where a Post begins, and postfix elsewhere.
#[tactic(auto, using(crate::proofs::Defaults::other_symbol))]
pub(crate) fn after_symbol(
    alloc: Global,
    symbol: RawWord,
    term: RawTerm,
    stack: Stack,
    terminal: Terminal,
) -> Result<Outcome, Memory>
    ensures { Settles result (step_state (State.AfterSymbol symbol term stack) terminal) }
{
    match terminal {
        Terminal::Word(_) | Terminal::Open(_) | Terminal::OpenBracket(_, _) => {
            let link = Link { symbol, left: term };
            match stack.with(Frame::InInfixes(Some(link))) {
                Ok(stack) => begin_post(terminal, stack),
                Err(error) => Err(let_go(error, terminal)),
            }
        }
        other => match behind_postfix(alloc, symbol, term, stack) {
            Ok((whole, stack)) => Ok(Outcome::Handed(whole, stack, other)),
            Err(error) => Err(let_go(error, other)),
        },
    }
}

// What a postfix symbol makes of a term, and the stack where others may follow.
fn behind_postfix(
    alloc: Global,
    symbol: RawWord,
    term: RawTerm,
    stack: Stack,
) -> Result<(RawTerm, Stack), Memory>
    ensures whole { IfOk result (λ both. both.0 ≡ postfix_tree symbol term) }
    ensures stack { IfOk result (λ both. both.1 ≡ InPostfixes ∷ stack) }
{
    let whole = postfix_tree(alloc, symbol, term)?;
    let stack = stack.with(Frame::InPostfixes)?;
    Ok((whole, stack))
}
