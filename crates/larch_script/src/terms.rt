ghost use Rattle.std.specs.Prelude.{◌≡◌, ◌≤◌, ◌<◌, ◌^◌, ℕ, IfOk, IfSome, None, Option, Result, Some, cond, length, nat_le};
ghost use Rattle.std.specs.Prelude.{option_and_then};
ghost use Rattle.larch_base.specs.Answering.{Answers};
ghost use Rattle.larch_base.specs.declared.fault.Fault.{Fault};
ghost use Rattle.larch_script.specs.Terms.{equation_at, read_value, reference_at, term_alone, term_at, whole, whole_equation_at};
ghost use Rattle.larch_script.specs.Terms.{whole_reference_at, whole_term_at};
ghost use Rattle.larch_syntax.specs.Refusal.{cause};

use larch_base::Memory;
use larch_lexer::Tokens;
use larch_raw::{RawEquation, RawOpRef};
use larch_syntax::{SyntaxRefusal, read_reference, read_term};
use std::alloc::Global;

// What stands at the front of tokens, if it isn't refused, with the index after it.
type Found<T> = Result<Option<(T, usize)>, Memory>;

// What was read, unless it is refused.
fn unless_refused<T: Drop>(reading: Result<(T, u32), SyntaxRefusal>) -> Found<T>
    ensures found { (answer : Result (T × ℕ) Fault) → Answers cause reading answer
        → IfOk result (λ found. found ≡ read_value answer) }
    ensures small { IfOk result (λ found. IfSome found (λ tree. tree.1 < 2 ^ 32)) }
{
    match reading {
        Ok((tree, after)) => Ok(Some((tree, after as usize))),
        Err(SyntaxRefusal::Memory) => Err(Memory),
        Err(_refusal) => Ok(None),
    }
}

// The index, where no more tokens stand before it than there are.
fn start_at(tokens: &Tokens, index: usize) -> Result<Option<u32>, Memory>
    ensures { IfOk result (λ from. from ≡ cond (nat_le index (length tokens.now.tokens)) (Some index) None) }
{
    if index > tokens.as_slice().len() {
        return Ok(None);
    }
    let from = u32::try_from(index).map_err(|_| Memory)?;
    Ok(Some(from))
}

// What was found, where it goes to the end of the tokens.
fn whole<T: Drop>(tokens: &Tokens, found: Option<(T, usize)>) -> Option<T>
    ensures { result ≡ option_and_then (whole (length tokens.now.tokens)) found }
{
    match found {
        Some((tree, after)) if after == tokens.as_slice().len() => Some(tree),
        _ => None,
    }
}

// The equation at the front of the tokens from this index on.
fn equation_at(alloc: Global, tokens: &Tokens, index: usize) -> Found<RawEquation>
    ensures found { IfOk result (λ found. found ≡ equation_at tokens.now index) }
    ensures small { IfOk result (λ found. IfSome found (λ equation. equation.1 < 2 ^ 32)) }
{
    match start_at(tokens, index)? {
        Some(from) => unless_refused(read_term(alloc, tokens, from)),
        None => Ok(None),
    }
}

/// The equation that all tokens from this index on are.
pub(crate) fn whole_equation_at(
    alloc: Global,
    tokens: &Tokens,
    index: usize,
) -> Result<Option<RawEquation>, Memory>
    ensures { IfOk result (λ equation. equation ≡ whole_equation_at tokens.now index) }
{
    Ok(whole(tokens, equation_at(alloc, tokens, index)?))
}

// An equation without a right side, which is a term.
fn term_alone(equation: RawEquation) -> Option<RawEquation>
    ensures { result ≡ term_alone equation }
{
    match &equation.right {
        Some(_right) => None,
        None => Some(equation),
    }
}

/// The term that all tokens from this index on are.
pub(crate) fn whole_term_at(
    alloc: Global,
    tokens: &Tokens,
    index: usize,
) -> Result<Option<RawEquation>, Memory>
    ensures { IfOk result (λ term. term ≡ whole_term_at tokens.now index) }
{
    match whole_equation_at(alloc, tokens, index)? {
        Some(equation) => Ok(term_alone(equation)),
        None => Ok(None),
    }
}

/// The term at the front of the tokens from this index on, with the index after it.
pub(crate) fn term_at(alloc: Global, tokens: &Tokens, index: usize) -> Found<RawEquation>
    ensures found { IfOk result (λ found. found ≡ term_at tokens.now index) }
    ensures small { IfOk result (λ found. IfSome found (λ term. term.1 < 2 ^ 32)) }
{
    match equation_at(alloc, tokens, index)? {
        Some((equation, after)) => Ok(term_alone(equation).map(|term| (term, after))),
        None => Ok(None),
    }
}

/// The reference to operators at the front of the tokens from this index on, with the index after it.
pub(crate) fn reference_at(alloc: Global, tokens: &Tokens, index: usize) -> Found<RawOpRef>
    ensures found { IfOk result (λ found. found ≡ reference_at tokens.now index) }
    ensures small { IfOk result (λ found. IfSome found (λ reference. reference.1 < 2 ^ 32)) }
{
    match start_at(tokens, index)? {
        Some(from) => unless_refused(read_reference(alloc, tokens, from)),
        None => Ok(None),
    }
}

/// The reference that all tokens from this index on are.
pub(crate) fn whole_reference_at(
    alloc: Global,
    tokens: &Tokens,
    index: usize,
) -> Result<Option<RawOpRef>, Memory>
    ensures { IfOk result (λ reference. reference ≡ whole_reference_at tokens.now index) }
{
    Ok(whole(tokens, reference_at(alloc, tokens, index)?))
}
