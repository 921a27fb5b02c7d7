ghost use Rattle.std.specs.Prelude.{◌≡◌, fold};
ghost use Rattle.larch_import_meaning.specs.Lengths.{longest, with_operator, with_pair, with_sort, with_statement};
ghost use Rattle.larch_import_meaning.specs.Lengths.{with_term, with_theory};

use larch_import_names::{Renaming, SortPair};
use larch_term::{Node, Operator, Sort, Statement, Term, Terms, Theory};

/// The greatest of the lengths of the new sorts of a renaming, of the sorts of a theory, and of Bool. It takes no
/// memory.
pub fn longest(by: &Renaming, theory: &Theory) -> usize
    ensures { result ≡ longest by.now theory.now }
{
    with_theory(with_pairs(b"Bool".len(), by.sorts.as_slice()), theory)
}

fn with_sort(most: usize, sort: &Sort) -> usize
    ensures { result ≡ with_sort most sort.now }
{
    most.max(sort.bytes().len())
}

fn with_pairs(most: usize, pairs: &[SortPair]) -> usize
    ensures { result ≡ fold with_pair most pairs.now }
{
    let mut most = most;
    for pair in pairs {
        most = with_sort(most, &pair.new);
    }
    most
}

fn with_sorts(most: usize, sorts: &[Sort]) -> usize
    ensures { result ≡ fold with_sort most sorts.now }
{
    let mut most = most;
    for sort in sorts {
        most = with_sort(most, sort);
    }
    most
}

fn with_operator(most: usize, operator: &Operator) -> usize
    ensures { result ≡ with_operator most operator.now }
{
    with_sort(with_sorts(most, operator.domain()), operator.range())
}

fn with_operators(most: usize, operators: &[Operator]) -> usize
    ensures { result ≡ fold with_operator most operators.now }
{
    let mut most = most;
    for operator in operators {
        most = with_operator(most, operator);
    }
    most
}

#[cycle(lengths)]
#[tactic(auto, using(larch_term::specs::Tree::nodes_all_is_sum, crate::proofs::Longest::terms_folded))]
fn with_term(most: usize, term: &Term) -> usize
    ensures { result ≡ with_term most term.now }
{
    match term.node() {
        Node::Var(_, sort) => with_sort(most, sort),
        Node::App(operator, arguments) => with_terms(with_operator(most, operator), arguments),
    }
}

#[cycle(lengths)]
#[tactic(auto, using(larch_term::specs::Tree::nodes_all_is_sum))]
fn with_terms(most: usize, terms: &Terms) -> usize
    ensures { result ≡ fold with_term most terms.now }
{
    let mut most = most;
    for term in terms.as_slice() {
        most = with_term(most, term);
    }
    most
}

fn with_statement(most: usize, statement: &Statement) -> usize
    ensures { result ≡ with_statement most statement.now }
{
    match statement {
        Statement::Equation(left, right) => with_term(with_term(most, left), right),
        Statement::Generated(sort, operators) | Statement::Partitioned(sort, operators) => {
            with_operators(with_sort(most, sort), operators.as_slice())
        }
    }
}

fn with_statements(most: usize, statements: &[Statement]) -> usize
    ensures { result ≡ fold with_statement most statements.now }
{
    let mut most = most;
    for statement in statements {
        most = with_statement(most, statement);
    }
    most
}

fn with_theory(most: usize, theory: &Theory) -> usize
    ensures { result ≡ with_theory most theory.now }
{
    with_statements(
        with_operators(most, theory.operators.as_slice()),
        theory.statements.as_slice(),
    )
}
