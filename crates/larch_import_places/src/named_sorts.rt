ghost use Rattle.std.specs.Prelude.{◌≡◌};
ghost use Rattle.std.specs.List.{list_all};
ghost use Rattle.larch_import_places.specs.NamedSorts.{names_operator, names_sort, names_statement, names_term};
ghost use Rattle.larch_import_places.specs.NamedSorts.{names_theory};

use larch_import_names::Renaming;
use larch_term::{Node, Operator, Sort, Statement, Term, Terms, Theory};

/// Whether all sorts of a theory are named. It takes no memory.
pub fn names_theory(by: &Renaming, theory: &Theory) -> bool
    ensures { result ≡ names_theory by.now theory.now }
{
    names_operators(by, theory.operators.as_slice())
        && names_statements(by, theory.statements.as_slice())
}

fn names_operators(by: &Renaming, operators: &[Operator]) -> bool
    ensures { result ≡ list_all (names_operator by.now) operators.now }
{
    operators
        .iter()
        .all(|operator| names_operator(by, operator))
}

fn names_statements(by: &Renaming, statements: &[Statement]) -> bool
    ensures { result ≡ list_all (names_statement by.now) statements.now }
{
    statements
        .iter()
        .all(|statement| names_statement(by, statement))
}

fn names_statement(by: &Renaming, statement: &Statement) -> bool
    ensures { result ≡ names_statement by.now statement.now }
{
    match statement {
        Statement::Equation(left, right) => names_term(by, left) && names_term(by, right),
        Statement::Generated(sort, operators) | Statement::Partitioned(sort, operators) => {
            names_sort(by, sort) && names_operators(by, operators.as_slice())
        }
    }
}

#[cycle(sorts)]
#[tactic(auto, using(larch_term::specs::Tree::nodes_all_is_sum, crate::proofs::NamesTold::terms_named))]
fn names_term(by: &Renaming, term: &Term) -> bool
    ensures { result ≡ names_term by.now term.now }
{
    match term.node() {
        Node::Var(_, sort) => names_sort(by, sort),
        Node::App(operator, arguments) => {
            names_operator(by, operator) && names_terms(by, arguments)
        }
    }
}

#[cycle(sorts)]
#[tactic(auto, using(larch_term::specs::Tree::nodes_all_is_sum))]
fn names_terms(by: &Renaming, terms: &Terms) -> bool
    ensures { result ≡ list_all (names_term by.now) terms.now }
{
    for term in terms.as_slice() {
        if !names_term(by, term) {
            return false;
        }
    }
    true
}

fn names_operator(by: &Renaming, operator: &Operator) -> bool
    ensures { result ≡ names_operator by.now operator.now }
{
    names_sorts(by, operator.domain()) && names_sort(by, operator.range())
}

fn names_sorts(by: &Renaming, sorts: &[Sort]) -> bool
    ensures { result ≡ list_all (names_sort by.now) sorts.now }
{
    sorts.iter().all(|sort| names_sort(by, sort))
}

fn names_sort(by: &Renaming, sort: &Sort) -> bool
    ensures { result ≡ names_sort by.now sort.now }
{
    match by.new_sort(sort) {
        Some(_) => true,
        None => false,
    }
}
