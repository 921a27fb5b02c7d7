ghost use Rattle.std.specs.Prelude.{◌≡◌, ◌==◌, [], map, length, IfOk};
ghost use Rattle.larch_models_meaning.specs.Computed.{holds_equation, variables_of_both};
ghost use Rattle.larch_models_meaning.specs.FiniteModel.{interpretation_of, last_among};
ghost use Rattle.larch_models_meaning.specs.Standard.{standard_last};
ghost use Rattle.larch_models.specs.Every.{all_lists};
ghost use Rattle.larch_models.specs.Stacks.{Computes, run, top};

use crate::lists::{Property, every_list};
use crate::program::{Program, evaluate, program_of};
use crate::sorts::last_value;
use larch_base::{Memory, Sequence};
use larch_models_meaning::{FiniteModel, SortValues};
use larch_term::{Term, Variable, Variables, add_variables, variables};
use std::alloc::Global;

/// Whether both sides have one value whatever their variables have.
#[tactic(auto, using(crate::proofs::Equations::equation_holds))]
pub(crate) fn holds_equation(
    alloc: Global,
    model: &FiniteModel,
    left: &Term,
    right: &Term,
) -> Result<bool, Memory>
    ensures { IfOk result (λ answer. answer ≡ holds_equation (interpretation_of model.now) left.now right.now) }
{
    let variables = variables_of_both(alloc, left, right)?;
    let sides = sides_of(alloc, model, variables.as_slice(), left, right)?;
    let lasts = lasts_of(alloc, model.sorts.as_slice(), variables.as_slice())?;
    holds_for_all(alloc, &sides, lasts.as_slice())
}

/// The variables of two terms, each once, those of the first one first.
pub(crate) fn variables_of_both(
    alloc: Global,
    left: &Term,
    right: &Term,
) -> Result<Variables, Memory>
    ensures { IfOk result (λ found. found ≡ variables_of_both left.now right.now) }
{
    let mut found = variables(alloc, left)?;
    add_variables(right, &mut found)?;
    Ok(found)
}

// The programs of both sides of an equation.
#[derive(Drop)]
struct Sides<'a> {
    left: Program<'a>,
    right: Program<'a>,
}

fn sides_of<'a>(
    alloc: Global,
    model: &'a FiniteModel,
    variables: &[Variable],
    left: &Term,
    right: &Term,
) -> Result<Sides<'a>, Memory>
    ensures left { IfOk result (λ sides. Computes model.now variables.now sides.left.items left.now) }
    ensures right { IfOk result (λ sides. Computes model.now variables.now sides.right.items right.now) }
{
    let left = program_of(alloc, model, variables, left)?;
    let right = program_of(alloc, model, variables, right)?;
    Ok(Sides { left, right })
}

impl<'a> Property for Sides<'a> {
    ghost so = { λ sides vs. top (run sides.left.items vs []) == top (run sides.right.items vs []) };

    fn check(&self, values: &[u32], scratch: &mut Vec<u32>) -> Result<bool, Memory> {
        let left = evaluate(self.left.as_slice(), values, scratch)?;
        let right = evaluate(self.right.as_slice(), values, scratch)?;
        Ok(left == right)
    }
}

// The last value of each variable.
fn lasts_of(
    alloc: Global,
    sorts: &[SortValues],
    variables: &[Variable],
) -> Result<Sequence<u32>, Memory>
    ensures { IfOk result (λ lasts. lasts
        ≡ map (λ w. standard_last (last_among sorts.now) w.sort) variables.now) }
{
    let mut lasts = Sequence::new(alloc);
    for variable in variables {
        lasts.push(last_value(sorts, &variable.sort))?;
    }
    Ok(lasts)
}

// Whether both programs compute one value, whatever the values up to the last ones.
fn holds_for_all(alloc: Global, sides: &Sides<'_>, lasts: &[u32]) -> Result<bool, Memory>
    ensures { IfOk result (λ answer. answer
        ≡ all_lists lasts.now
        (λ vs. top (run sides.now.left.items vs []) == top (run sides.now.right.items vs []))) }
{
    let mut values = Vec::new(alloc);
    let mut scratch = Vec::new(alloc);
    every_list(sides, lasts, &mut values, &mut scratch)
}
