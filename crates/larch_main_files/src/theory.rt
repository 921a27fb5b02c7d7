ghost use Rattle.std.specs.Prelude.{◌≡◌, ◌<◌, ◌+◌, ◌++◌, ◌∷◌, [], get_or, length, slice_get, take, true, IfOk, None, Some};
ghost use Rattle.larch_base.specs.Answering.{Answers};
ghost use Rattle.larch_traits.specs.FlatKnown.{AreAllKnown, Knows, is_known, stop_told};
ghost use Rattle.larch_flat_meaning.specs.Gathered.{statements_in};
ghost use Rattle.larch_flat_sources.specs.Sources.{name_at};
ghost use Rattle.larch_main_files.specs.Theory.{theory_in, trait_theory};

use larch_base::{Fault, Memory, Sequence};
use larch_flat_gathering::Flat;
use larch_flat_sources::Sources;
use larch_flat_statements::MarkedStatements;
use larch_term::{Statement, Statements, Theory, copy_operators, copy_statement};
use larch_traits::from_flat::FlatTraits;
use larch_traits_items::TraitRefusal;
use std::alloc::Global;

/// The theory of the trait of the file with a number, where all flat traits are known. `Wrong` has what is wrong with
/// the flat trait first.
pub(crate) fn trait_theory(
    alloc: Global,
    sources: &Sources,
    flat_traits: &FlatTraits,
    number: usize,
) -> Result<Theory, TraitRefusal>
    requires number { number < length sources.now }
    requires known { Knows sources.now flat_traits.now }
    requires all { AreAllKnown sources.now flat_traits.now }
    ensures { Answers stop_told result (trait_theory sources.now (name_at sources.now number)) }
{
    match known_of(flat_traits, number) {
        Ok(flat) => Ok(theory_of(alloc, flat)?),
        Err(fault) => Err(TraitRefusal::Wrong(fault.pos, fault.code)),
    }
}

// What is known of the file with a number.
fn known_of(flat_traits: &FlatTraits, number: usize) -> &Result<Flat, Fault>
    requires within { number < length flat_traits.now }
    requires known { is_known flat_traits.now number ≡ true }
    ensures { get_or flat_traits.now number None ≡ Some result.now }
{
    flat_traits.get(number).unwrap()
}

// The theory of a flat trait.
fn theory_of(alloc: Global, flat: &Flat) -> Result<Theory, Memory>
    ensures { IfOk result (λ theory. theory ≡ theory_in flat.now) }
{
    let operators = copy_operators(alloc, flat.operators.as_slice())?;
    let statements = statements_of(alloc, &flat.marked)?;
    Ok(Theory {
        operators,
        statements,
    })
}

// The statements of marked ones.
fn statements_of(alloc: Global, marked: &MarkedStatements) -> Result<Statements, Memory>
    ensures { IfOk result (λ statements. statements ≡ statements_in marked.now) }
{
    let mut statements = Sequence::new(alloc);
    for index in 0..marked.len() {
        let (statement, _) = marked_at(marked, index);
        let statement = copy_statement(alloc, statement)?;
        statements.push(statement)?;
    }
    Ok(statements)
}

// The marked statement at a place.
fn marked_at(marked: &MarkedStatements, index: usize) -> (&Statement, bool)
    requires { index < length marked.now }
    ensures { take (index + 1) marked.now
        ≡ take index marked.now ++ record { statement = result.0.now; assumed = result.1 } ∷ [] }
{
    entry_at(marked, index)
}

// The same, as it is kept.
fn entry_at(marked: &MarkedStatements, index: usize) -> (&Statement, bool)
    requires { index < length marked.now }
    ensures { Some (record { statement = result.0.now; assumed = result.1 }) ≡ slice_get marked.now index }
{
    marked.get(index).unwrap()
}
