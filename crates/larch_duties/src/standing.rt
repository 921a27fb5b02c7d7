ghost use Rattle.std.specs.Prelude.{◌≡◌};
ghost use Rattle.std.specs.List.{list_any};
ghost use Rattle.larch_term.specs.Tree.{forest_of};
ghost use Rattle.larch_duties_meaning.specs.Conversions.{has_one_of, have_one_of, names_one_of};
ghost use Rattle.larch_duties_meaning.specs.Implied.{is_among};

use crate::among::Among;
use larch_term::{Node, Operator, Statement, Term, Terms};

// Whether one of some operators stands in a term.
#[cycle(standing)]
#[tactic(auto, using(larch_term::specs::Tree::nodes_all_is_sum))]
pub(crate) fn has_one_of(among: &Among, term: &Term) -> bool
    ensures { result ≡ has_one_of among.now term.now }
{
    match term.node() {
        Node::Var(_, _) => false,
        Node::App(operator, arguments) => among.has(operator) || have_one_of(among, arguments),
    }
}

// Whether one of some operators stands in a term among these.
#[cycle(standing)]
#[tactic(auto, using(larch_term::specs::Tree::nodes_all_is_sum))]
fn have_one_of(among: &Among, terms: &Terms) -> bool
    ensures { result ≡ have_one_of among.now (forest_of terms.now) }
{
    for term in terms.as_slice() {
        if has_one_of(among, term) {
            return true;
        }
    }
    false
}

// Whether one of some operators stands in a statement.
pub(crate) fn names_one_of(among: &Among, statement: &Statement) -> bool
    ensures { result ≡ names_one_of among.now statement.now }
{
    match statement {
        Statement::Equation(left, right) => has_one_of(among, left) || has_one_of(among, right),
        Statement::Generated(_, operators) => any_among(among, operators.as_slice()),
        Statement::Partitioned(_, operators) => any_among(among, operators.as_slice()),
    }
}

// Whether one of some operators is among these.
fn any_among(among: &Among, operators: &[Operator]) -> bool
    ensures { result ≡ list_any (is_among among.now) operators.now }
{
    operators.iter().any(|operator| among.has(operator))
}
