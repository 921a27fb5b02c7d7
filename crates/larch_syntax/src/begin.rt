ghost use Rattle.std.specs.Prelude.{◌≡◌, ◌∷◌, [], suc, IfOk, None};
ghost use Rattle.larch_grammar.specs.Depth.{depth_of};
ghost use Rattle.larch_grammar.specs.Machine.{at_head, open_bracket, plainly, word_frames};
ghost use Rattle.larch_grammar.specs.Terms.{opens, opens_head};
ghost use Rattle.larch_grammar.specs.Trees.{bracket_tree};
ghost use Rattle.larch_grammar.specs.declared.machine.Frame.TheVariants.{InConnectives, InEqualities, InLeft, Prefixed};
ghost use Rattle.larch_grammar.specs.declared.machine.State.TheVariants.{NeedPrefixed};
ghost use Rattle.larch_syntax_heads.specs.Outcome.{Settles, closes, outcome, settle, step_state};

use larch_base::{Memory, Pos, let_go};
use larch_grammar::{
    Bracket, Frame, Listing, Stack, State, Terminal, Waiting, bracket_tree, no_terms, position_of,
};
use larch_grammar_law::Mark;
use larch_raw::{RawTerm, RawWord};
use larch_syntax_heads::{Outcome, at_head, plainly, stops};
use std::alloc::Global;

// A token that opens a construct.
pub(crate) fn opens(stack: &Stack) -> Mark
    ensures { result ≡ opens (suc (depth_of stack.now)) }
{
    Mark::Opens(stack.is_full())
}

// The same at a head token.
fn opens_head(stack: &Stack) -> Mark
    ensures { result ≡ opens_head (suc (depth_of stack.now)) }
{
    Mark::OpensHead(stack.is_full())
}

// A bracket opens, behind this operand if there is one.
pub(crate) fn open_bracket(
    bracket: Bracket,
    pos: Pos,
    front: Option<RawTerm>,
    stack: Stack,
) -> Outcome
    ensures { result ≡ outcome (open_bracket bracket pos front stack) None }
{
    let mark = opens_head(&stack);
    Outcome::Taken(mark, State::NeedFirst(bracket, front, pos, stack))
}

// The first token of a Post.
pub(crate) fn begin_post(terminal: Terminal, stack: Stack) -> Result<Outcome, Memory>
    ensures { Settles result (step_state (State.NeedPost stack) terminal) }
{
    match terminal {
        Terminal::Word(word) => Ok(at_head(State::AfterWord(word, stack))),
        Terminal::Open(_pos) => {
            let mark = opens(&stack);
            let inside = stack.with(Frame::InFields)?.with(Frame::InParentheses)?;
            Ok(Outcome::Taken(mark, State::NeedTerm(inside)))
        }
        Terminal::OpenBracket(bracket, pos) => Ok(open_bracket(bracket, pos, None, stack)),
        other => Ok(let_go(stops(), (stack, other))),
    }
}

// A prefix symbol.
fn begin_prefix(symbol: RawWord, stack: Stack) -> Result<Outcome, Memory>
    ensures { Settles result (outcome (at_head (NeedPrefixed (Prefixed symbol ∷ stack))) None) }
{
    let behind = stack.with(Frame::Prefixed(symbol))?;
    Ok(at_head(State::NeedPrefixed(behind)))
}

// The first token behind a prefix symbol.
#[tactic(auto, using(crate::proofs::Defaults::other_prefixed))]
pub(crate) fn begin_prefixed(terminal: Terminal, stack: Stack) -> Result<Outcome, Memory>
    ensures { Settles result (step_state (State.NeedPrefixed stack) terminal) }
{
    match terminal {
        Terminal::Symbol(symbol) | Terminal::Not(symbol) => begin_prefix(symbol, stack),
        other => match stack.with(Frame::InStrays) {
            Ok(stack) => begin_post(other, stack),
            Err(error) => Err(let_go(error, other)),
        },
    }
}

// The first token of an Oper.
#[tactic(auto, using(crate::proofs::Defaults::other_operand))]
pub(crate) fn begin_operand(terminal: Terminal, stack: Stack) -> Result<Outcome, Memory>
    ensures { Settles result (step_state (State.NeedOperand stack) terminal) }
{
    match terminal {
        Terminal::Symbol(symbol) | Terminal::Not(symbol) => begin_prefix(symbol, stack),
        other => match stack.with(Frame::InInfixes(None)) {
            Ok(stack) => begin_post(other, stack),
            Err(error) => Err(let_go(error, other)),
        },
    }
}

// The first token of a term.
#[tactic(auto, using(crate::proofs::Defaults::other_term))]
pub(crate) fn begin_term(terminal: Terminal, stack: Stack) -> Result<Outcome, Memory>
    ensures { Settles result (step_state (State.NeedTerm stack) terminal) }
{
    match terminal {
        Terminal::If(pos) => {
            let mark = opens_head(&stack);
            let condition = stack.with(Frame::InIf(pos))?;
            Ok(Outcome::Taken(mark, State::NeedTerm(condition)))
        }
        other => match with_outer_chains(stack) {
            Ok(chains) => begin_operand(other, chains),
            Err(error) => Err(let_go(error, other)),
        },
    }
}

// These frames, and in front of them the two outer chains that a term begins.
fn with_outer_chains(stack: Stack) -> Result<Stack, Memory>
    ensures { IfOk result (λ chains. chains ≡ InEqualities None ∷ (InConnectives None ∷ stack)) }
{
    let chains = stack
        .with(Frame::InConnectives(None))?
        .with(Frame::InEqualities(None))?;
    Ok(chains)
}

// The first token of an equation.
pub(crate) fn begin_equation(
    alloc: Global,
    terminal: Terminal,
    waiting: Waiting,
) -> Result<Outcome, Memory>
    ensures { Settles result (step_state (State.NeedEquation waiting) terminal) }
{
    match left_of(alloc, position_of(&terminal), waiting) {
        Ok(stack) => begin_term(terminal, stack),
        Err(error) => Err(let_go(error, terminal)),
    }
}

// The frame of the left side of an equation that begins there.
fn left_of(alloc: Global, first: Pos, waiting: Waiting) -> Result<Stack, Memory>
    ensures { IfOk result (λ stack. stack ≡ InLeft first waiting ∷ []) }
{
    let stack = match Stack::with_room(alloc) {
        Ok(stack) => stack,
        Err(error) => return Err(let_go(error, waiting)),
    };
    let stack = stack.with(Frame::InLeft(first, waiting))?;
    Ok(stack)
}

// A bracket is open: it ends, or its first term begins.
pub(crate) fn begin_bracket(
    alloc: Global,
    bracket: Bracket,
    front: Option<RawTerm>,
    pos: Pos,
    stack: Stack,
    terminal: Terminal,
) -> Result<Outcome, Memory>
    ensures { Settles result (step_state (State.NeedFirst bracket front pos stack) terminal) }
{
    let stack = match stack.with(Frame::InFields) {
        Ok(stack) => stack,
        Err(error) => return Err(let_go(error, (front, terminal))),
    };
    if closes(bracket, &terminal) {
        end_bracket(alloc, bracket, front, pos, stack)
    } else {
        begin_first(alloc, bracket, front, pos, stack, terminal)
    }
}

// Whether a token ends a bracket.
fn closes(bracket: Bracket, terminal: &Terminal) -> bool
    ensures { result ≡ closes bracket terminal.now }
{
    match (bracket, terminal) {
        (Bracket::Square, Terminal::CloseBracket(Bracket::Square))
        | (Bracket::Curly, Terminal::CloseBracket(Bracket::Curly)) => true,
        _ => false,
    }
}

// A bracket ends without a term.
fn end_bracket(
    alloc: Global,
    bracket: Bracket,
    front: Option<RawTerm>,
    pos: Pos,
    stack: Stack,
) -> Result<Outcome, Memory>
    ensures { Settles result (outcome (plainly (State.Have (bracket_tree bracket front pos []) stack)) None) }
{
    let term = bracket_tree(alloc, bracket, front, pos, no_terms(alloc))?;
    Ok(plainly(State::Have(term, stack)))
}

// The first term of a bracket begins.
fn begin_first(
    alloc: Global,
    bracket: Bracket,
    front: Option<RawTerm>,
    pos: Pos,
    stack: Stack,
    terminal: Terminal,
) -> Result<Outcome, Memory>
    ensures { Settles result
        (step_state (State.NeedTerm (Frame.InList (Listing.Bracketed bracket front pos) [] ∷ stack)) terminal) }
{
    let listing = Listing::Bracketed(bracket, front, pos);
    match stack.with(Frame::InList(listing, no_terms(alloc))) {
        Ok(inside) => begin_term(terminal, inside),
        Err(error) => Err(let_go(error, terminal)),
    }
}

// The frames of an equation that begins with a word.
pub(crate) fn word_frames(alloc: Global, word: &RawWord, waiting: Waiting) -> Result<Stack, Memory>
    ensures { IfOk result (λ stack. stack ≡ word_frames word.now waiting) }
{
    let frames = left_of(alloc, word.pos, waiting)?.with_chains()?;
    Ok(frames)
}
