ghost use Rattle.std.specs.Prelude.{◌≡◌, fold};
ghost use Rattle.larch_term.specs.Tree.{forest_of};
ghost use Rattle.larch_flat_statements.specs.HashInput.{forest_input, statement_input, tree_input};

use larch_term::{Node, Statement, Term, Terms};
use std::hash::{Hash, Hasher};

// Hashes the names in a statement.
pub(crate) fn hash_statement<H: Hasher>(statement: &Statement, state: &mut H)
    ensures { state.new ≡ fold H.write state.old (statement_input statement.now) }
{
    match statement {
        Statement::Equation(left, right) => {
            hash_term(left, state);
            hash_term(right, state);
        }
        Statement::Generated(sort, operators) => {
            sort.hash(state);
            operators.as_slice().hash(state);
        }
        Statement::Partitioned(sort, operators) => {
            sort.hash(state);
            operators.as_slice().hash(state);
        }
    }
}

// Hashes the names in a term, each operator's before those of its arguments.
#[cycle(names)]
#[tactic(auto, using(larch_term::specs::Tree::nodes_all_is_sum))]
fn hash_term<H: Hasher>(term: &Term, state: &mut H)
    ensures { state.new ≡ fold H.write state.old (tree_input term.now) }
{
    match term.node() {
        Node::Var(name, sort) => {
            name.hash(state);
            sort.hash(state);
        }
        Node::App(operator, arguments) => {
            operator.name().hash(state);
            hash_terms(arguments, state);
        }
    }
}

#[cycle(names)]
#[tactic(auto, using(larch_term::specs::Tree::nodes_all_is_sum))]
fn hash_terms<H: Hasher>(terms: &Terms, state: &mut H)
    ensures { state.new ≡ fold H.write state.old (forest_input (forest_of terms.now)) }
{
    for term in terms.as_slice() {
        hash_term(term, state);
    }
}
