ghost use Rattle.std.specs.Prelude.{◌≡◌, ◌++◌, map, IfOk, OnOk};
ghost use Rattle.larch_prove_settings.specs.Scope.{pair_of};
ghost use Rattle.larch_prove_opening.specs.ProvePlansPlanning.{names_of_operators};

use larch_base::{Memory, Name};
use larch_term::{Operator, Variable};
use std::alloc::Global;

// The names of operators, and behind them those of variables.
pub(crate) fn names_of(
    alloc: Global,
    operators: &[Operator],
    variables: &[Variable],
) -> Result<Vec<Name>, Memory>
    ensures { IfOk result (λ names. names.items
        ≡ names_of_operators operators.now ++ map (λ v. v.0) (map pair_of variables.now)) }
{
    let mut names = Vec::new(alloc);
    push_operators(operators, &mut names)?;
    push_variables(variables, &mut names)?;
    Ok(names)
}

// Puts the names of operators behind others.
fn push_operators(operators: &[Operator], names: &mut Vec<Name>) -> Result<(), Memory>
    ensures { OnOk result (names.new.items ≡ names.old.items ++ names_of_operators operators.now) }
{
    for operator in operators {
        let name = operator.name().copy()?;
        names.push(name)?;
    }
    Ok(())
}

// Puts the names of variables behind others.
fn push_variables(variables: &[Variable], names: &mut Vec<Name>) -> Result<(), Memory>
    ensures { OnOk result (names.new.items ≡ names.old.items ++ map (λ v. v.0) (map pair_of variables.now)) }
{
    for variable in variables {
        let name = variable.name.copy()?;
        names.push(name)?;
    }
    Ok(())
}
