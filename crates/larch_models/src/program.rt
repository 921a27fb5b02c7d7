ghost use Rattle.std.specs.Prelude.{◌≡◌, ◌++◌, ◌∷◌, [], ℕ, List, length, None, IfOk, OnOk};
ghost use Rattle.larch_term.specs.Tree.{forest_of};
ghost use Rattle.larch_models_meaning.specs.FiniteModel.{interpretation_of};
ghost use Rattle.larch_models.specs.Stacks.{Adds, AddsAll, Applies, Computes, place_among, run, step, top, value_at};

use crate::maker::{Maker, maker_of};
use larch_base::{Memory, Name};
use larch_models_meaning::FiniteModel;
use larch_term::{Node, Operator, Sort, Term, Terms, Variable};
use std::alloc::Global;

/// A step of a program, which works on a stack of values.
#[derive(Drop)]
pub(crate) enum Instruction<'a> {
    /// Puts the value of the variable with this number, counted from 0, or 0 without a number.
    Variable(Option<usize>),
    /// Puts what is made of so many values in their place.
    Apply(Maker<'a>, usize),
}

/// What computes the value of a term: arguments before their operator.
pub(crate) type Program<'a> = Vec<Instruction<'a>>;

/// The program of a term.
pub(crate) fn program_of<'a>(
    alloc: Global,
    model: &'a FiniteModel,
    variables: &[Variable],
    term: &Term,
) -> Result<Program<'a>, Memory>
    ensures { IfOk result (λ program. Computes model.now variables.now program.items term.now) }
{
    let mut program = Vec::new(alloc);
    put_term(alloc, model, variables, term, &mut program)?;
    Ok(program)
}

// Puts the program of a term behind another one.
#[cycle(put_term)]
#[tactic(auto, using(larch_term::specs::Tree::nodes_all_is_sum))]
fn put_term<'a>(
    alloc: Global,
    model: &'a FiniteModel,
    variables: &[Variable],
    term: &Term,
    program: &mut Program<'a>,
) -> Result<(), Memory>
    ensures { OnOk result (Adds model.now variables.now program.old.items program.new.items term.now) }
{
    match term.node() {
        Node::Var(name, sort) => {
            let number = number_of(variables, name, sort);
            program.push(Instruction::Variable(number))?;
            Ok(())
        }
        Node::App(operator, arguments) => {
            put_terms(alloc, model, variables, arguments, program)?;
            put_operator(alloc, model, operator, arguments.as_slice().len(), program)?;
            Ok(())
        }
    }
}

#[cycle(put_term)]
#[tactic(auto, using(larch_term::specs::Tree::nodes_all_is_sum))]
fn put_terms<'a>(
    alloc: Global,
    model: &'a FiniteModel,
    variables: &[Variable],
    terms: &Terms,
    program: &mut Program<'a>,
) -> Result<(), Memory>
    ensures { OnOk result (AddsAll model.now variables.now program.old.items program.new.items
        (forest_of terms.now)) }
{
    for term in terms.as_slice() {
        put_term(alloc, model, variables, term, program)?;
    }
    Ok(())
}

// Puts an operator with so many arguments behind their program.
fn put_operator<'a>(
    alloc: Global,
    model: &'a FiniteModel,
    operator: &Operator,
    count: usize,
    program: &mut Program<'a>,
) -> Result<(), Memory>
    ensures { OnOk result (Applies model.now operator.now count program.old.items program.new.items) }
{
    let maker = maker_of(alloc, model, operator)?;
    program.push(Instruction::Apply(maker, count))?;
    Ok(())
}

// The number of the last of these variables that has this name and sort.
fn number_of(variables: &[Variable], name: &Name, sort: &Sort) -> Option<usize>
    ensures { result ≡ place_among 0 variables.now name.now sort.now None }
{
    let mut found = None;
    for i in 0..variables.len() {
        if variables[i].name == *name && variables[i].sort == *sort {
            found = Some(i);
        }
    }
    found
}

/// The value that a program computes where the variables have these values. What is on the stack before is taken off.
pub(crate) fn evaluate(
    program: &[Instruction<'_>],
    values: &[u32],
    stack: &mut Vec<u32>,
) -> Result<u32, Memory>
    ensures { IfOk result (λ value. value ≡ top (run program.now values.now [])) }
{
    stack.clear();
    for instruction in program {
        take_step(instruction, values, stack)?;
    }
    Ok(stack.last().copied().unwrap_or(0))
}

// Does a step of a program.
fn take_step(
    instruction: &Instruction<'_>,
    values: &[u32],
    stack: &mut Vec<u32>,
) -> Result<(), Memory>
    ensures { OnOk result (stack.new.items ≡ step values.now instruction.now stack.old.items) }
{
    match instruction {
        Instruction::Variable(number) => {
            stack.push(value_at(values, *number))?;
            Ok(())
        }
        Instruction::Apply(maker, count) => {
            let start = stack.len().saturating_sub(*count);
            let value = maker.value(&stack[start..]);
            stack.truncate(start);
            stack.push(value)?;
            Ok(())
        }
    }
}

// The value of the variable with this number, or 0.
fn value_at(values: &[u32], number: Option<usize>) -> u32
    ensures { result ≡ value_at values.now number }
{
    match number {
        Some(number) => values.get(number).copied().unwrap_or(0),
        None => 0,
    }
}
