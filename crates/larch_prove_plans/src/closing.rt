ghost use Rattle.std.specs.Prelude.{◌≡◌, ◌++◌, map, IfOk, OnOk};
ghost use Rattle.larch_calculus.specs.Formula.{constant};
ghost use Rattle.larch_calculus.specs.Freed.{constants_for};
ghost use Rattle.larch_prove_meaning.specs.Plans.{closed_by, constants_of, taken_beside};
ghost use Rattle.larch_term.specs.Variable.{variables_of};

use crate::new_names::{copy_names, new_constants};
use crate::terms::constant;
use larch_base::{Memory, Name, Sequence};
use larch_prove_meaning::from_pairs::{Entries, substitution_of};
use larch_term::{Entry, Operator, Operators, Substitution, Term, Variable, substitute, variables};
use std::alloc::Global;

// The names that are taken beside a goal: the goal's variables have names too.
pub(crate) fn taken_beside(alloc: Global, taken: &[Name], goal: &Term) -> Result<Vec<Name>, Memory>
    ensures { IfOk result (λ names. names.items ≡ taken_beside taken.now goal.now) }
{
    let variables = variables(alloc, goal)?;
    let mut names = copy_names(alloc, taken)?;
    push_names(variables.as_slice(), &mut names)?;
    Ok(names)
}

fn push_names(variables: &[Variable], names: &mut Vec<Name>) -> Result<(), Memory>
    ensures { OnOk result (names.new.items ≡ names.old.items ++ map (λ v. v.name) variables.now) }
{
    for variable in variables {
        let name = variable.name.copy()?;
        names.push(name)?;
    }
    Ok(())
}

// New constants for the variables of a term, beside a goal.
pub(crate) fn constants_of(
    alloc: Global,
    taken: &[Name],
    goal: &Term,
    term: &Term,
) -> Result<Operators, Memory>
    ensures { IfOk result (λ cs. cs ≡ constants_of taken.now goal.now term.now) }
{
    let taken = taken_beside(alloc, taken, goal)?;
    let variables = variables(alloc, term)?;
    let constants = new_constants(alloc, taken.as_slice(), variables.as_slice())?;
    Ok(constants)
}

/// A term with constants in the places of a formula's variables, in order.
pub fn closed_by(
    alloc: Global,
    formula: &Term,
    constants: &[Operator],
    term: &Term,
) -> Result<Term, Memory>
    ensures { IfOk result (λ t. t ≡ closed_by formula.now constants.now term.now) }
{
    let by = closing(alloc, formula, constants)?;
    let closed = substitute(alloc, term, &by)?;
    Ok(closed)
}

// The substitution of constants for the variables of a term.
#[tactic(auto, using(crate::proofs::Closed::constants_apart))]
pub(crate) fn closing(
    alloc: Global,
    term: &Term,
    constants: &[Operator],
) -> Result<Substitution, Memory>
    ensures { IfOk result (λ es. es ≡ constants_for (variables_of term.now) constants.now) }
{
    let variables = variables(alloc, term)?;
    let entries = constants_for(alloc, variables.as_slice(), constants)?;
    let closing = substitution_of(alloc, entries)?;
    Ok(closing)
}

fn constants_for(
    alloc: Global,
    variables: &[Variable],
    constants: &[Operator],
) -> Result<Entries, Memory>
    ensures { IfOk result (λ es. es ≡ constants_for variables.now constants.now) }
{
    let mut entries = Sequence::new(alloc);
    for i in 0..variables.len() {
        if i >= constants.len() {
            return Ok(entries);
        }
        let entry = entry_for(alloc, &variables[i], &constants[i])?;
        entries.push(entry)?;
    }
    Ok(entries)
}

fn entry_for(alloc: Global, variable: &Variable, operator: &Operator) -> Result<Entry, Memory>
    ensures { IfOk result (λ e. e ≡ record {
      name = variable.now.name;
      sort = variable.now.sort;
      term = constant operator.now;
    }) }
{
    let name = variable.name.copy()?;
    let sort = variable.sort.copy()?;
    let term = constant(alloc, operator)?;
    Ok(Entry { name, sort, term })
}
