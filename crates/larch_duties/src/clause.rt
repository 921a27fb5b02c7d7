ghost use Rattle.std.specs.Prelude.{◌≡◌, ◌++◌, codes, decimal, filter, map, IfOk};
ghost use Rattle.larch_term.specs.Tree.{var};
ghost use Rattle.larch_term.specs.declared.statement.Statement.TheVariants.{Equation};
ghost use Rattle.larch_renaming.specs.Renaming.{rename_tree, renamed_statement};
ghost use Rattle.larch_flat_meaning.specs.Gathered.{statements_in};
ghost use Rattle.larch_flat_meaning.specs.Replacements.{renaming};
ghost use Rattle.larch_duties_meaning.specs.Conversions.{by_copies, bytes_of, clause_by, clause_over, copies, copy_of};
ghost use Rattle.larch_duties_meaning.specs.Conversions.{names_one_of};
ghost use Rattle.larch_duties_meaning.specs.Duties.{arguments, is_its_copy, of_variables};
ghost use Rattle.larch_duties.specs.Kept.{theory_in};

use crate::among::Among;
use crate::conversion::Conversion;
use crate::known::marked_at;
use crate::standing::names_one_of;
use crate::words::{names_of, take_word, word_for};
use larch_base::{Memory, Name, Sequence};
use larch_flat::from_flat_gathering::Flat;
use larch_flat::from_flat_replacing::{NewNames, Replacements};
use larch_flat::from_flat_statements::MarkedStatements;
use larch_term::{Operator, Sort, Sorts, Statement, Statements, Term, Terms, copy};
use std::alloc::Global;
use std::marker::Model;

// A converted operator, with the word that its copy has as a name.
pub(crate) struct Copied {
    pub(crate) operator: Operator,
    pub(crate) word: Name,
}

// By a call, so that a proof takes one apart in one place alone.
impl Drop for Copied {
    fn drop(self) {
        let Copied {
            operator: _operator,
            word: _word,
        } = self;
    }
}

impl Model for Copied {
    ghost use Rattle.larch_duties_meaning.specs.Conversions.{Copied as WithWord};
    ghost use Rattle.larch_duties.specs.DutiesCode.{coded_copied};

    ghost Value = { WithWord };

    ghost coded = { coded_copied };

    ghost view = { λ c. record { operator = c.operator; word = c.word } };
}

// What a clause `converts` adds to a trait: copies, the statements by the copies, and the exempted terms.
#[derive(Drop)]
pub(crate) struct Clause {
    pub(crate) copies: Sequence<Copied>,
    pub(crate) copied: Statements,
    pub(crate) exempt: Statements,
}

impl Model for Clause {
    ghost use Rattle.larch_duties_meaning.specs.Conversions.{Clause as Added};
    ghost use Rattle.larch_duties.specs.DutiesCode.{coded_clause};

    ghost Value = { Added };

    ghost coded = { coded_clause };

    ghost view = { λ c. record { copies = c.copies; copied = c.copied; exempt = c.exempt } };
}

// What a clause adds to a flat trait.
pub(crate) fn clause_over(
    alloc: Global,
    flat: &Flat,
    conversion: &Conversion,
) -> Result<Clause, Memory>
    ensures { IfOk result (λ clause. clause ≡ clause_over (theory_in flat.now) conversion.now) }
{
    let operators = flat.operators.as_slice();
    let copies = copies_of(alloc, operators, conversion.converted.as_slice())?;
    let clause = clause_by(alloc, &flat.marked, conversion, copies)?;
    Ok(clause)
}

// Operators with words for their copies, in order, where the names of these operators are taken.
fn copies_of(
    alloc: Global,
    operators: &[Operator],
    converted: &[Operator],
) -> Result<Sequence<Copied>, Memory>
    ensures { IfOk result (λ cs. cs ≡ copies 1 (map (λ f. bytes_of f.name) operators.now) converted.now) }
{
    let mut taken = names_of(alloc, operators)?;
    let mut copies = Sequence::new(alloc);
    for (i, operator) in converted.iter().enumerate() {
        let word = word_for(alloc, &taken, i + 1, operator)?;
        take_word(&mut taken, &word)?;
        let operator = operator.copy()?;
        copies.push(Copied { operator, word })?;
    }
    Ok(copies)
}

// What a clause with these copies adds to statements.
fn clause_by(
    alloc: Global,
    marked: &MarkedStatements,
    conversion: &Conversion,
    copies: Sequence<Copied>,
) -> Result<Clause, Memory>
    ensures { IfOk result (λ clause. clause ≡ clause_by (statements_in marked.now) conversion.now copies) }
{
    let converted = conversion.converted.as_slice();
    let names = names_by(alloc, copies.as_slice(), converted)?;
    let among = Among::of(alloc, converted)?;
    let copied = copied_in(alloc, &among, &names, marked)?;
    let exempt = exempt_in(alloc, &names, conversion.exempted.as_slice())?;
    Ok(Clause {
        copies,
        copied,
        exempt,
    })
}

// What puts copies in the places of these operators.
fn names_by(alloc: Global, copies: &[Copied], converted: &[Operator]) -> Result<NewNames, Memory>
    ensures { IfOk result (λ names. names ≡ by_copies copies.now) }
{
    let by = by_copies(alloc, copies)?;
    let names = NewNames::new(alloc, by, converted)?;
    Ok(names)
}

// What puts copies in the places of their operators.
fn by_copies(alloc: Global, copies: &[Copied]) -> Result<Replacements, Memory>
    ensures { IfOk result (λ by. by ≡ by_copies copies.now) }
{
    let mut by = Replacements::none(alloc);
    for copied in copies {
        by = by.with_operator(&copied.operator, &copied.word)?;
    }
    Ok(by)
}

// The statements that name one of some operators, by new names.
fn copied_in(
    alloc: Global,
    among: &Among,
    names: &NewNames,
    marked: &MarkedStatements,
) -> Result<Statements, Memory>
    ensures { IfOk result (λ copied. copied ≡ map (renamed_statement (renaming names.now))
        (filter (names_one_of among.now) (statements_in marked.now))) }
{
    let mut copied = Sequence::new(alloc);
    for index in 0..marked.len() {
        let (statement, _) = marked_at(marked, index);
        if names_one_of(among, statement) {
            let statement = names.rename_statement(alloc, statement)?;
            copied.push(statement)?;
        }
    }
    Ok(copied)
}

// That each of some terms is the same by new names.
fn exempt_in(alloc: Global, names: &NewNames, terms: &[Term]) -> Result<Statements, Memory>
    ensures { IfOk result (λ exempt. exempt ≡ map (λ t. Equation t (rename_tree (renaming names.now) t)) terms.now) }
{
    let mut exempt = Sequence::new(alloc);
    for term in terms {
        let other = names.rename_term(alloc, term)?;
        let term = copy(alloc, term)?;
        exempt.push(Statement::Equation(term, other))?;
    }
    Ok(exempt)
}

// The copy of an operator.
pub(crate) fn copy_of(alloc: Global, copied: &Copied) -> Result<Operator, Memory>
    ensures { IfOk result (λ copy. copy ≡ copy_of copied.now) }
{
    let word = copied.word.copy()?;
    let domain = copy_sorts(alloc, copied.operator.domain())?;
    let range = copied.operator.range().copy()?;
    let copy = Operator::new(alloc, word, domain, range)?;
    Ok(copy)
}

// The same sorts once more.
fn copy_sorts(alloc: Global, sorts: &[Sort]) -> Result<Sorts, Memory>
    ensures { IfOk result (λ copies. copies ≡ sorts.now) }
{
    let mut copies = Sequence::new(alloc);
    for sort in sorts {
        let sort = sort.copy()?;
        copies.push(sort)?;
    }
    Ok(copies)
}

// That an operator is its copy, whatever its arguments are.
pub(crate) fn is_its_copy(alloc: Global, copied: &Copied) -> Result<Statement, Memory>
    ensures { IfOk result (λ statement. statement ≡ is_its_copy copied.now) }
{
    let left = of_variables(alloc, &copied.operator)?;
    let copy = copy_of(alloc, copied)?;
    let right = of_variables(alloc, &copy)?;
    Ok(Statement::Equation(left, right))
}

// An operator of the variables x1, x2, ..
fn of_variables(alloc: Global, operator: &Operator) -> Result<Term, Memory>
    ensures { IfOk result (λ term. term ≡ of_variables operator.now) }
{
    let arguments = arguments(alloc, operator.domain())?;
    let operator = operator.copy()?;
    Ok(Term::app(operator, arguments))
}

// Variables of these sorts, x1, x2, ..
fn arguments(alloc: Global, sorts: &[Sort]) -> Result<Terms, Memory>
    ensures { IfOk result (λ variables. variables ≡ arguments 1 sorts.now) }
{
    let mut arguments = Vec::with_capacity(alloc, sorts.len())?;
    for (i, sort) in sorts.iter().enumerate() {
        let variable = variable(alloc, i + 1, sort)?;
        arguments.push(variable)?;
    }
    Ok(Terms::from_vec(arguments))
}

// The variable of a sort with this number.
fn variable(alloc: Global, number: usize, sort: &Sort) -> Result<Term, Memory>
    ensures { IfOk result (λ variable. variable ≡ var (codes "x" ++ decimal number) sort.now) }
{
    let text = format!(in alloc; "x{number}")?;
    let name = Name::new(alloc, text.as_bytes())?;
    let sort = sort.copy()?;
    Ok(Term::var(name, sort))
}
