ghost use Rattle.std.specs.Prelude.{◌≡◌, ◌≤◌, ◌++◌, [], drop, length, IfOk, OnOk};
ghost use Rattle.std.specs.List.{list_any};
ghost use Rattle.larch_term.specs.Variable.{occurrences_in, same_variable};
ghost use Rattle.larch_term.specs.Tree.{forest_of};
ghost use Rattle.larch_pairs.specs.Demand.{occurs, binding, demand, demand_all, first_demand, pairs_of};

use larch_base::{Memory, Name, Sequence};
use larch_term::{Node, Sort, Term, Variable, copy};
use std::alloc::Global;

// Two terms that are to become one.
#[derive(Drop)]
pub(crate) struct Sides {
    pub(crate) left: Term,
    pub(crate) right: Term,
}

// Several equations, in order.
pub(crate) type Equations = Sequence<Sides>;

// What equations ask for first.
#[derive(Drop)]
pub(crate) enum Demand {
    // Nothing: their sides are equal.
    Nothing,
    // A binding of a variable; these equations are then left.
    Bind(Variable, Term, Equations),
    // What no substitution does.
    Clash,
}

// What an equation asks for. It goes down to the first difference, and copies what stands behind it.
#[cycle(demand)]
#[tactic(auto, using(larch_term::specs::Tree::nodes_all_is_sum, crate::proofs::Asking::forest_back))]
pub(crate) fn demand_of(alloc: Global, left: &Term, right: &Term) -> Result<Demand, Memory>
    ensures { IfOk result (λ d. d ≡ demand left.now right.now) }
{
    match (left.node(), right.node()) {
        (Node::Var(name, sort), Node::Var(other, other_sort)) => {
            if name == other && sort == other_sort {
                return Ok(Demand::Nothing);
            }
            let bound = bind(alloc, name, sort, right)?;
            Ok(bound)
        }
        (Node::Var(name, sort), Node::App(_, _)) => {
            let bound = binding(alloc, name, sort, right)?;
            Ok(bound)
        }
        (Node::App(_, _), Node::Var(name, sort)) => {
            let bound = binding(alloc, name, sort, left)?;
            Ok(bound)
        }
        (Node::App(operator, terms), Node::App(other, others)) => {
            let terms = terms.as_slice();
            let others = others.as_slice();
            if operator == other && terms.len() == others.len() {
                let asked = demand_of_all(alloc, terms, others)?;
                return Ok(asked);
            }
            Ok(Demand::Clash)
        }
    }
}

#[cycle(demand)]
#[tactic(auto, using(larch_term::specs::Tree::nodes_all_is_sum, crate::proofs::Asking::forest_back))]
fn demand_of_all(alloc: Global, terms: &[Term], others: &[Term]) -> Result<Demand, Memory>
    requires { length terms.now ≡ length others.now }
    ensures { IfOk result (λ d. d ≡ demand_all (forest_of terms.now) (forest_of others.now)) }
{
    for i in 0..terms.len() {
        match demand_of(alloc, &terms[i], &others[i])? {
            Demand::Nothing => {}
            Demand::Bind(variable, term, equations) => {
                let mut equations = equations;
                push_pairs(alloc, &terms[i + 1..], &others[i + 1..], &mut equations)?;
                return Ok(Demand::Bind(variable, term, equations));
            }
            Demand::Clash => return Ok(Demand::Clash),
        }
    }
    Ok(Demand::Nothing)
}

// What a list of equations asks for. Of those that are left, what isn't asked is moved.
pub(crate) fn first_demand(alloc: Global, equations: Equations) -> Result<Demand, Memory>
    ensures { IfOk result (λ d. d ≡ first_demand equations) }
{
    let equations = equations.into_vec();
    for i in 0..equations.len() {
        match demand_of(alloc, &equations[i].left, &equations[i].right)? {
            Demand::Nothing => {}
            Demand::Bind(variable, term, left) => {
                let left = with_rest(left, equations, i + 1)?;
                return Ok(Demand::Bind(variable, term, left));
            }
            Demand::Clash => return Ok(Demand::Clash),
        }
    }
    Ok(Demand::Nothing)
}

// Equations with those from a number on behind them.
fn with_rest(equations: Equations, all: Vec<Sides>, start: usize) -> Result<Equations, Memory>
    requires { start ≤ length all.items }
    ensures { IfOk result (λ es. es ≡ equations ++ drop start all.items) }
{
    let mut equations = equations.into_vec();
    let mut all = all;
    let mut rest = all.split_off(start)?;
    equations.append(&mut rest)?;
    Ok(Sequence::from_vec(equations))
}

// The binding of a variable to an application, where it doesn't occur in it.
fn binding(alloc: Global, name: &Name, sort: &Sort, term: &Term) -> Result<Demand, Memory>
    ensures { IfOk result (λ d. d ≡ binding (record { name = name.now; sort = sort.now }) term.now) }
{
    if occurs(term, name, sort) {
        return Ok(Demand::Clash);
    }
    let bound = bind(alloc, name, sort, term)?;
    Ok(bound)
}

fn bind(alloc: Global, name: &Name, sort: &Sort, term: &Term) -> Result<Demand, Memory>
    ensures { IfOk result (λ d. d ≡ Demand.Bind (record { name = name.now; sort = sort.now }) term.now []) }
{
    let term = copy(alloc, term)?;
    let variable = Variable {
        name: name.copy()?,
        sort: sort.copy()?,
    };
    Ok(Demand::Bind(variable, term, Sequence::new(alloc)))
}

// Whether a variable occurs in a term.
#[cycle(occurs)]
#[tactic(auto, using(larch_term::specs::Tree::nodes_all_is_sum))]
pub(crate) fn occurs(term: &Term, name: &Name, sort: &Sort) -> bool
    ensures { result ≡ occurs (record { name = name.now; sort = sort.now }) term.now }
{
    match term.node() {
        Node::Var(other, other_sort) => name == other && sort == other_sort,
        Node::App(_, arguments) => occurs_in(arguments.as_slice(), name, sort),
    }
}

#[cycle(occurs)]
#[tactic(auto, using(larch_term::specs::Tree::nodes_all_is_sum))]
fn occurs_in(terms: &[Term], name: &Name, sort: &Sort) -> bool
    ensures { result ≡ list_any (same_variable (record { name = name.now; sort = sort.now }))
        (occurrences_in (forest_of terms.now)) }
{
    for term in terms {
        if occurs(term, name, sort) {
            return true;
        }
    }
    false
}

// Puts the equations of arguments, one by one, behind others.
fn push_pairs(
    alloc: Global,
    terms: &[Term],
    others: &[Term],
    equations: &mut Equations,
) -> Result<(), Memory>
    requires { length terms.now ≡ length others.now }
    ensures { OnOk result (equations.new ≡ equations.old ++ pairs_of (forest_of terms.now) (forest_of others.now)) }
{
    for i in 0..terms.len() {
        let left = copy(alloc, &terms[i])?;
        let right = copy(alloc, &others[i])?;
        equations.push(Sides { left, right })?;
    }
    Ok(())
}
