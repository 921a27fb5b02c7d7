ghost use Rattle.std.specs.Prelude.{◌≡◌, ◌↔◌, IsTrue, IfOk};
ghost use Rattle.larch_term.specs.Tree.{Tree, var, app, forest_of};

use larch_base::{Memory, Name};
use larch_term::{Operator, Sort, Term, Terms, same_operator};
use std::alloc::Global;
use std::marker::Model;
use std::rc::Rc;

/// A term that a raw term reads as, which its copies share. Contracts see it as a plain tree.
#[cycle(reading)]
pub struct Reading {
    node: Rc<Node>,
}

// By a call, so that a proof takes one apart in one place alone.
impl Drop for Reading {
    #[cycle(drops)]
    fn drop(self) {
        let Reading { node: _node } = self;
    }
}

/// What it is at its root.
#[cycle(reading)]
#[derive(Drop)]
pub(crate) enum Node {
    Var(Name, Sort),
    App(Operator, Vec<Reading>),
}

impl Model for Reading {
    ghost use Rattle.larch_term.specs.Tree.{Tree, nodes};
    ghost use Rattle.larch_term.specs.TreeCode.{coded_tree};

    ghost Value = { Tree };

    ghost coded = { coded_tree };

    ghost use Rattle.std.specs.Prelude.{◌*◌};
    ghost use Rattle.larch_sorts_signature.specs.ReadingView.{view_node};

    ghost view = { λ reading. view_node reading.node.value };

    ghost size = { λ tree. 2 * nodes tree };

    ghost use Rattle.larch_sorts_signature.specs.ReadingFalls.{node_falls};

    ghost size_decreases = { λ reading _. node_falls reading.node.value };
}

impl Reading {
    /// A variable.
    pub fn var(alloc: Global, name: Name, sort: Sort) -> Result<Reading, Memory>
        ensures { IfOk result (λ reading. reading ≡ var name sort) }
    {
        let node = Rc::new(alloc, Node::Var(name, sort))?;
        Ok(Reading { node })
    }

    /// An operator with these arguments.
    pub fn app(
        alloc: Global,
        operator: Operator,
        arguments: Vec<Reading>,
    ) -> Result<Reading, Memory>
        ensures { IfOk result (λ reading. reading ≡ app operator (forest_of arguments.items)) }
    {
        let node = Rc::new(alloc, Node::App(operator, arguments))?;
        Ok(Reading { node })
    }

    /// The same once more. It takes no memory of its own, but there may be too many copies.
    pub fn copy(&self) -> Result<Reading, Memory>
        ensures { IfOk result (λ reading. reading ≡ self.now) }
    {
        let node = self.node.clone()?;
        Ok(Reading { node })
    }
}

// Whether two readings are equal. It takes no memory.
#[cycle(same)]
#[tactic(auto, using(larch_term::proofs::TreeLists::same_parts, larch_term::specs::Tree::nodes_all_is_sum))]
pub(crate) fn same_reading(left: &Reading, right: &Reading) -> bool
    ensures { IsTrue result ↔ (left.now ≡ right.now) }
{
    match (&*left.node, &*right.node) {
        (Node::Var(name, sort), Node::Var(other, other_sort)) => name == other
            && sort == other_sort,
        (Node::App(operator, arguments), Node::App(other, others)) => {
            same_operator(operator, other) && same_readings(arguments.as_slice(), others.as_slice())
        }
        _ => false,
    }
}

#[cycle(same)]
#[tactic(auto, using(larch_term::specs::Tree::nodes_all_is_sum))]
fn same_readings(left: &[Reading], right: &[Reading]) -> bool
    ensures { IsTrue result ↔ (left.now ≡ right.now) }
{
    if left.len() != right.len() {
        return false;
    }
    for i in 0..left.len() {
        if !same_reading(&left[i], &right[i]) {
            return false;
        }
    }
    true
}

/// The term of a reading.
#[cycle(term)]
#[tactic(auto, using(larch_term::specs::Tree::nodes_all_is_sum))]
pub fn term_of(alloc: Global, reading: &Reading) -> Result<Term, Memory>
    ensures { IfOk result (λ term. term ≡ reading.now) }
{
    match &*reading.node {
        Node::Var(name, sort) => {
            let name = name.copy()?;
            let sort = sort.copy()?;
            Ok(Term::var(name, sort))
        }
        Node::App(operator, arguments) => {
            let arguments = terms_of(alloc, arguments.as_slice())?;
            let operator = operator.copy()?;
            Ok(Term::app(operator, arguments))
        }
    }
}

#[cycle(term)]
#[tactic(auto, using(larch_term::specs::Tree::nodes_all_is_sum))]
fn terms_of(alloc: Global, readings: &[Reading]) -> Result<Terms, Memory>
    ensures { IfOk result (λ terms. terms ≡ readings.now) }
{
    let mut terms = Vec::with_capacity(alloc, readings.len())?;
    for reading in readings {
        let term = term_of(alloc, reading)?;
        terms.push(term)?;
    }
    Ok(Terms::from_vec(terms))
}
