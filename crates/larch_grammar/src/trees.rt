ghost use Rattle.std.specs.Prelude.{◌≡◌, ◌++◌, ◌∷◌, [], IfOk};
ghost use Rattle.larch_grammar.specs.Trees.{bracket_tree, call_tree, field_tree, if_tree, infix_name, infix_tree};
ghost use Rattle.larch_grammar.specs.Trees.{chain_tree, one, postfix_tree, prefix_tree};
ghost use Rattle.larch_raw.specs.RawTree.{qualified};

use crate::machine::Link;
use crate::names::{
    bracket_behind_name, bracket_name, field_name, if_name, infix_name, postfix_name, prefix_name,
};
use crate::terminal::Bracket;
use larch_base::{Memory, Name, Pos};
use larch_raw::{RawNode, RawTerm, RawTerms, RawWord};
use std::alloc::Global;

/// No terms.
pub fn no_terms(alloc: Global) -> RawTerms
    ensures { result ≡ [] }
{
    RawTerms::from_vec(Vec::new(alloc))
}

// No terms, with room for so many.
fn room_for(alloc: Global, count: usize) -> Result<RawTerms, Memory>
    ensures { IfOk result (λ terms. terms ≡ []) }
{
    let items = Vec::with_capacity(alloc, count)?;
    Ok(RawTerms::from_vec(items))
}

/// The terms with one more.
pub fn with_term(terms: RawTerms, term: RawTerm) -> Result<RawTerms, Memory>
    ensures { IfOk result (λ more. more ≡ terms ++ term ∷ []) }
{
    let mut items = terms.into_vec();
    items.push(term)?;
    Ok(RawTerms::from_vec(items))
}

// An operator with one operand.
fn one(alloc: Global, name: Name, pos: Pos, operand: RawTerm) -> Result<RawTerm, Memory>
    ensures { IfOk result (λ term. term ≡ one name pos operand) }
{
    let operands = room_for(alloc, 1)?;
    let operands = with_term(operands, operand)?;
    Ok(RawTerm::apply(name, operands, pos))
}

// An infix symbol between its operands.
fn infix_tree(
    alloc: Global,
    symbol: RawWord,
    left: RawTerm,
    right: RawTerm,
) -> Result<RawTerm, Memory>
    ensures { IfOk result (λ term. term ≡ infix_tree symbol left right) }
{
    let name = name_behind(alloc, &symbol.name, &left)?;
    let operands = room_for(alloc, 2)?;
    let operands = with_term(operands, left)?;
    let operands = with_term(operands, right)?;
    Ok(RawTerm::apply(name, operands, symbol.pos))
}

// The name of an infix symbol, which a chain of the symbol shares: behind an operand that has it there is no new one.
fn name_behind(alloc: Global, symbol: &Name, left: &RawTerm) -> Result<Name, Memory>
    ensures { IfOk result (λ name. name ≡ infix_name symbol.now) }
{
    let name = infix_name(alloc, symbol)?;
    if let RawNode::Apply(before, _, _) = left.node() {
        if *before == name {
            return before.copy();
        }
    }
    Ok(name)
}

/// A prefix symbol before its operand.
pub fn prefix_tree(alloc: Global, symbol: RawWord, operand: RawTerm) -> Result<RawTerm, Memory>
    ensures { IfOk result (λ term. term ≡ prefix_tree symbol operand) }
{
    let name = prefix_name(alloc, &symbol.name)?;
    let term = one(alloc, name, symbol.pos, operand)?;
    Ok(term)
}

/// A postfix symbol behind its operand.
pub fn postfix_tree(alloc: Global, symbol: RawWord, operand: RawTerm) -> Result<RawTerm, Memory>
    ensures { IfOk result (λ term. term ≡ postfix_tree symbol operand) }
{
    let name = postfix_name(alloc, &symbol.name)?;
    let term = one(alloc, name, symbol.pos, operand)?;
    Ok(term)
}

/// A field of its operand, with the position of the dot.
pub fn field_tree(
    alloc: Global,
    pos: Pos,
    word: RawWord,
    operand: RawTerm,
) -> Result<RawTerm, Memory>
    ensures { IfOk result (λ term. term ≡ field_tree pos word operand) }
{
    let name = field_name(alloc, &word.name)?;
    let term = one(alloc, name, pos, operand)?;
    Ok(term)
}

/// A term that is said to have this sort.
pub fn qualified(alloc: Global, term: RawTerm, sort: RawWord, pos: Pos) -> Result<RawTerm, Memory>
    ensures { IfOk result (λ whole. whole ≡ qualified term sort pos) }
{
    let term = Box::new(alloc, term)?;
    Ok(RawTerm::qualify(term, sort, pos))
}

/// A word with its arguments.
pub fn call_tree(word: RawWord, arguments: RawTerms) -> RawTerm
    ensures { result ≡ call_tree word arguments }
{
    let RawWord { name, pos } = word;
    RawTerm::apply(name, arguments, pos)
}

/// A bracket, perhaps with an operand in front of it.
pub fn bracket_tree(
    alloc: Global,
    bracket: Bracket,
    front: Option<RawTerm>,
    pos: Pos,
    inside: RawTerms,
) -> Result<RawTerm, Memory>
    ensures { IfOk result (λ term. term ≡ bracket_tree bracket front pos inside) }
{
    let operands = inside.as_slice().len();
    match front {
        None => {
            let name = bracket_name(alloc, bracket, operands)?;
            Ok(RawTerm::apply(name, inside, pos))
        }
        Some(front) => {
            let name = bracket_behind_name(alloc, bracket, operands)?;
            let operands = behind(alloc, front, inside)?;
            Ok(RawTerm::apply(name, operands, pos))
        }
    }
}

// These terms behind another one.
fn behind(alloc: Global, front: RawTerm, terms: RawTerms) -> Result<RawTerms, Memory>
    ensures { IfOk result (λ all. all ≡ front ∷ terms) }
{
    let mut items = Vec::new(alloc);
    items.push(front)?;
    let mut further = terms.into_vec();
    items.append(&mut further)?;
    Ok(RawTerms::from_vec(items))
}

/// `if`, with its position and three parts.
pub fn if_tree(
    alloc: Global,
    pos: Pos,
    condition: RawTerm,
    first: RawTerm,
    second: RawTerm,
) -> Result<RawTerm, Memory>
    ensures { IfOk result (λ term. term ≡ if_tree pos condition first second) }
{
    let name = if_name(alloc)?;
    let parts = room_for(alloc, 3)?;
    let parts = with_term(parts, condition)?;
    let parts = with_term(parts, first)?;
    let parts = with_term(parts, second)?;
    Ok(RawTerm::apply(name, parts, pos))
}

/// A term behind the symbol of a chain, or the first of one.
pub fn chain_tree(alloc: Global, link: Option<Link>, term: RawTerm) -> Result<RawTerm, Memory>
    ensures { IfOk result (λ whole. whole ≡ chain_tree link term) }
{
    match link {
        None => Ok(term),
        Some(Link { symbol, left }) => {
            let whole = infix_tree(alloc, symbol, left, term)?;
            Ok(whole)
        }
    }
}
