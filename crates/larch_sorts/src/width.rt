use crate::told::told_sort;
use larch_base::Memory;
use larch_raw::{RawNode, RawTerm, RawTerms};
use larch_sorts_signature::from_sorts_meaning::{Scope, variable_sort};
use larch_sorts_signature::{Overloads, Signature};
use larch_term::BuiltIn;

// So many sorts of one term are many: a table of them is large.
const MANY: usize = 64;

// Counts go through all operators of a name, tables through those that can take the arguments: where a name has more
// than so many times as many operators as any part has sorts, tables take less.
const SHARE: usize = 16;

// At how many sorts a term reads at most, as far as names and known sorts tell; whether the table of it, or that of one
// of its parts, may be large; at how many sorts any part reads at most; and how many operators a name with arguments
// has at most. Names without arguments have their tables before.
#[derive(Clone, Copy)]
struct Width {
    sorts: usize,
    is_large: bool,
    most_sorts: usize,
    most_operators: usize,
}

// What has one sort.
const ONE: Width = Width {
    sorts: 1,
    is_large: false,
    most_sorts: 1,
    most_operators: 0,
};

// Whether a term is worth counting: else its tables are small, or take less.
pub(crate) fn is_wide(signature: &Signature, scope: &Scope, raw: &RawTerm) -> Result<bool, Memory> {
    let width = width_of(signature, scope, raw)?;
    Ok(width.is_large && is_worth(width))
}

// The same of two terms, whose tables are compared.
pub(crate) fn are_wide(
    signature: &Signature,
    scope: &Scope,
    left: &RawTerm,
    right: &RawTerm,
) -> Result<bool, Memory> {
    let left = width_of(signature, scope, left)?;
    let right = width_of(signature, scope, right)?;
    let is_large = left.is_large || right.is_large || MANY < left.sorts && MANY < right.sorts;
    Ok(is_large && is_worth(together(left, right)))
}

// Whether no name has too many operators for its parts to be counted.
fn is_worth(width: Width) -> bool {
    width.most_operators <= width.most_sorts.saturating_mul(SHARE)
}

// How wide a term is.
#[cycle(width)]
#[tactic(auto, using(larch_raw::specs::RawTree::raw_nodes_all_is_sum))]
fn width_of(signature: &Signature, scope: &Scope, raw: &RawTerm) -> Result<Width, Memory> {
    match raw.node() {
        RawNode::Apply(name, arguments, _) => {
            if variable_sort(scope, name, arguments).is_some() {
                return Ok(ONE);
            }
            let (inner, last) = width_of_all(signature, scope, arguments)?;
            let Some(overloads) = signature.named(name) else {
                return Ok(inner);
            };
            // A choice has the sort of its last argument.
            let ways = if name.bytes() == BuiltIn::If.name() {
                last
            } else {
                inner.sorts
            };
            let sorts = sorts_made(signature, scope, overloads, arguments, ways)?;
            if arguments.as_slice().is_empty() {
                return Ok(Width {
                    sorts,
                    is_large: false,
                    most_sorts: sorts,
                    most_operators: 0,
                });
            }
            Ok(Width {
                sorts,
                is_large: inner.is_large || MANY < sorts,
                most_sorts: larger(inner.most_sorts, sorts),
                most_operators: larger(inner.most_operators, overloads.as_slice().len()),
            })
        }
        RawNode::Qualified(term, _, _) => {
            let inner = width_of(signature, scope, term)?;
            Ok(Width { sorts: 1, ..inner })
        }
    }
}

// How wide arguments are together, which have so many sorts, one of each, and how many sorts the last one has.
#[cycle(width)]
#[tactic(auto, using(larch_raw::specs::RawTree::raw_nodes_all_is_sum))]
fn width_of_all(
    signature: &Signature,
    scope: &Scope,
    arguments: &RawTerms,
) -> Result<(Width, usize), Memory> {
    let mut all = ONE;
    let mut last = 1;
    for argument in arguments.as_slice() {
        let width = width_of(signature, scope, argument)?;
        all = together(all, width);
        last = width.sorts;
    }
    Ok((all, last))
}

// How wide two arguments are together.
fn together(left: Width, right: Width) -> Width {
    Width {
        sorts: left.sorts.saturating_mul(right.sorts),
        is_large: left.is_large || right.is_large,
        most_sorts: larger(left.most_sorts, right.most_sorts),
        most_operators: larger(left.most_operators, right.most_operators),
    }
}

fn larger(left: usize, right: usize) -> usize {
    if left < right { right } else { left }
}

// How many sorts operators make at most of arguments that have their sorts in so many ways: no more than there are
// operators, or that take an argument whose sort is known; and where each has a domain of its own, no more than ways.
fn sorts_made(
    signature: &Signature,
    scope: &Scope,
    overloads: &Overloads,
    arguments: &RawTerms,
    ways: usize,
) -> Result<usize, Memory> {
    let mut most = overloads.as_slice().len();
    let Some(places) = overloads.places() else {
        return Ok(most);
    };
    if places.domains().len() == most && ways < most {
        most = ways;
    }
    let arguments = arguments.as_slice();
    for position in 0..arguments.len() {
        if let Some(sort) = told_sort(signature, scope, &arguments[position]) {
            let taking = places.at(arguments.len(), position, sort)?.len();
            if taking < most {
                most = taking;
            }
        }
    }
    Ok(most)
}
