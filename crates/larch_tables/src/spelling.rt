ghost use Rattle.std.specs.Prelude.{◌≡◌, ◌≤◌, ◌-◌, IfOk, None, length};
ghost use Rattle.std.specs.List.{slice_get};
ghost use Rattle.larch_calculus.specs.TermBuiltIn.{bool_sort};
ghost use Rattle.larch_calculus.specs.TermTree.{var};
ghost use Rattle.larch_tables.specs.Spelling.{words, variables, arity, word_before, before, spelling_of, only};
ghost use Rattle.larch_tables.specs.Spelling.{spelled_side, equation_of};

use crate::row::{Side, Sides};
use larch_calculus::from_base::{Memory, Name, Sequence};
use larch_calculus::from_term::{BuiltIn, Sort, Statement, Term, Terms, bool_sort};
use std::alloc::Global;

// What the codes from 0 on stand for.
const WORDS: [BuiltIn; 10] = [
    BuiltIn::True,
    BuiltIn::False,
    BuiltIn::Not,
    BuiltIn::And,
    BuiltIn::Or,
    BuiltIn::Implies,
    BuiltIn::Iff,
    BuiltIn::Equal,
    BuiltIn::Unequal,
    BuiltIn::If,
];

// The equation that two sides spell at a sort, where each spells one term.
pub(crate) fn equation_of(
    alloc: Global,
    sides: &Sides,
    sort: &Sort,
) -> Result<Option<Statement>, Memory>
    ensures { IfOk result (λ equation. equation ≡ equation_of sort.now sides.now) }
{
    let Some(left) = spelled_side(alloc, &sides.left, sort)? else {
        return Ok(None);
    };
    let Some(right) = spelled_side(alloc, &sides.right, sort)? else {
        return Ok(None);
    };
    Ok(Some(Statement::Equation(left, right)))
}

fn spelled_side(alloc: Global, side: &Side, sort: &Sort) -> Result<Option<Term>, Memory>
    ensures { IfOk result (λ term. term ≡ spelled_side sort.now side.now) }
{
    let length = (side.length as usize).min(side.codes.len());
    let Some(terms) = spelling_of(alloc, &side.codes[..length], sort)? else {
        return Ok(None);
    };
    Ok(only(terms))
}

// The term, where there is one.
fn only(terms: Sequence<Term>) -> Option<Term>
    ensures { result ≡ only terms }
{
    let mut terms = terms.into_vec();
    if terms.len() != 1 {
        return None;
    }
    terms.pop()
}

// The terms that codes in preorder spell, where they spell any. It goes as deep as there are codes, eight at most.
fn spelling_of(alloc: Global, codes: &[u8], sort: &Sort) -> Result<Option<Sequence<Term>>, Memory>
    ensures { IfOk result (λ terms. terms ≡ spelling_of sort.now codes.now) }
{
    let Some((code, further)) = codes.split_first() else {
        return Ok(Some(Sequence::new(alloc)));
    };
    let Some(terms) = spelling_of(alloc, further, sort)? else {
        return Ok(None);
    };
    let terms = with_code(alloc, *code, sort, terms)?;
    Ok(terms)
}

// The terms with one more code before them.
fn with_code(
    alloc: Global,
    code: u8,
    sort: &Sort,
    terms: Sequence<Term>,
) -> Result<Option<Sequence<Term>>, Memory>
    ensures { IfOk result (λ spelling_of. spelling_of ≡
        before sort.now (slice_get words code) (slice_get (variables sort.now) (code - length words)) terms) }
{
    if (code as usize) < WORDS.len() {
        let terms = with_word(alloc, WORDS[code as usize], sort, terms)?;
        return Ok(terms);
    }
    let Some(variable) = variable(alloc, code, sort)? else {
        return Ok(None);
    };
    let mut terms = terms.into_vec();
    terms.insert(0, variable)?;
    Ok(Some(Sequence::from_vec(terms)))
}

// The word with the terms that it takes, before the further ones.
fn with_word(
    alloc: Global,
    word: BuiltIn,
    sort: &Sort,
    terms: Sequence<Term>,
) -> Result<Option<Sequence<Term>>, Memory>
    ensures { IfOk result (λ spelling_of. spelling_of ≡ word_before sort.now word terms) }
{
    let mut arguments = terms.into_vec();
    if arguments.len() < arity(word) {
        return Ok(None);
    }
    let mut terms = arguments.split_off(arity(word))?;
    let operator = word.operator(alloc, sort)?;
    terms.insert(0, Term::app(operator, Terms::from_vec(arguments)))?;
    Ok(Some(Sequence::from_vec(terms)))
}

fn arity(word: BuiltIn) -> usize
    ensures { result ≡ arity word }
{
    match word {
        BuiltIn::True | BuiltIn::False => 0,
        BuiltIn::Not => 1,
        BuiltIn::If => 3,
        _ => 2,
    }
}

// The variable with a code, if it stands for one.
fn variable(alloc: Global, code: u8, sort: &Sort) -> Result<Option<Term>, Memory>
    requires { length words ≤ code }
    ensures { IfOk result (λ variable. variable ≡ slice_get (variables sort.now) (code - length words)) }
{
    let variable = match code {
        10 => truth_value(alloc, b"x")?,
        11 => truth_value(alloc, b"y")?,
        12 => truth_value(alloc, b"z")?,
        13 => variable_named(alloc, b"a", sort)?,
        14 => variable_named(alloc, b"b", sort)?,
        _ => return Ok(None),
    };
    Ok(Some(variable))
}

// The variable of truth values with a name.
fn truth_value(alloc: Global, name: &[u8]) -> Result<Term, Memory>
    ensures { IfOk result (λ variable. variable ≡ var name.now bool_sort) }
{
    let truth = bool_sort(alloc)?;
    let variable = variable_named(alloc, name, &truth)?;
    Ok(variable)
}

// The variable with a name and a sort.
fn variable_named(alloc: Global, name: &[u8], sort: &Sort) -> Result<Term, Memory>
    ensures { IfOk result (λ variable. variable ≡ var name.now sort.now) }
{
    let name = Name::new(alloc, name)?;
    let sort = sort.copy()?;
    Ok(Term::var(name, sort))
}
