use larch_base::{Memory, Name, Sequence};
use larch_certificate::{Coded, CodedEquation, CodedNode, CodedTerms, Symbol};
use larch_term::{Operator, Operators, Statement, Term, Terms, sort_of};
use std::alloc::Global;

/// The operators with these numbers, counted from 1.
pub fn operators_by(
    alloc: Global,
    operators: &[Operator],
    numbers: &[u64],
) -> Result<Option<Operators>, Memory> {
    let mut found = Sequence::new(alloc);
    for number in numbers {
        let Some(operator) = operator_at(operators, *number) else {
            return Ok(None);
        };
        let operator = operator.copy()?;
        found.push(operator)?;
    }
    Ok(Some(found))
}

fn operator_at(operators: &[Operator], number: u64) -> Option<&Operator> {
    if number == 0 {
        return None;
    }
    operators.get(number as usize - 1)
}

/// The equation that a coded one means.
pub fn read_equation(
    alloc: Global,
    operators: &[Operator],
    equation: &CodedEquation,
) -> Result<Option<Statement>, Memory> {
    let Some(left) = read_term(alloc, operators, &equation.left)? else {
        return Ok(None);
    };
    let Some(right) = read_term(alloc, operators, &equation.right)? else {
        return Ok(None);
    };
    Ok(Some(Statement::Equation(left, right)))
}

/// The term that a coded one means. Whether it is well sorted isn't looked at.
#[cycle(read)]
#[tactic(auto, using(larch_certificate::specs::Coded::coded_nodes_all_is_sum))]
pub fn read_term(
    alloc: Global,
    operators: &[Operator],
    term: &Coded,
) -> Result<Option<Term>, Memory> {
    match term.node() {
        CodedNode::Var(name, sort) => {
            let name = name.copy()?;
            let sort = sort.copy()?;
            Ok(Some(Term::var(name, sort)))
        }
        CodedNode::App(symbol, arguments) => {
            let Some(read) = read_terms(alloc, operators, arguments)? else {
                return Ok(None);
            };
            let operator = find_operator(alloc, operators, *symbol, &read)?;
            Ok(operator.map(|operator| Term::app(operator, Terms::from_vec(read))))
        }
    }
}

#[cycle(read)]
#[tactic(auto, using(larch_certificate::specs::Coded::coded_nodes_all_is_sum))]
fn read_terms(
    alloc: Global,
    operators: &[Operator],
    terms: &CodedTerms,
) -> Result<Option<Vec<Term>>, Memory> {
    let mut read = Vec::new(alloc);
    for term in terms.as_slice() {
        let Some(term) = read_term(alloc, operators, term)? else {
            return Ok(None);
        };
        read.push(term)?;
    }
    Ok(Some(read))
}

fn find_operator(
    alloc: Global,
    operators: &[Operator],
    symbol: Symbol,
    arguments: &[Term],
) -> Result<Option<Operator>, Memory> {
    match symbol {
        Symbol::Own(number) => match operator_at(operators, number) {
            Some(operator) => {
                let operator = operator.copy()?;
                Ok(Some(operator))
            }
            None => Ok(None),
        },
        Symbol::Constant(_, _) => Ok(None),
        Symbol::BuiltIn(kind) => {
            let sort = sort_of_last(alloc, arguments)?;
            let operator = kind.operator(alloc, &sort)?;
            Ok(Some(operator))
        }
    }
}

// The sort of the last argument; no bytes where there is none.
fn sort_of_last(alloc: Global, arguments: &[Term]) -> Result<Name, Memory> {
    match arguments {
        [.., last] => sort_of(last).copy(),
        _ => Name::new(alloc, b""),
    }
}
