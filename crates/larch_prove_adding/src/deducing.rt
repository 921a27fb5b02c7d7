ghost use Rattle.std.specs.Prelude.{◌≡◌, ◌↔◌, ◌++◌, ◌∷◌, [], ℕ, List, All, Some, option_map, if◌then◌else◌};
ghost use Rattle.std.specs.Prelude.{IfOk, IfSome, IfNone, IsSome, OnOk};
ghost use Rattle.std.specs.List.{AllZip, flat_map};
ghost use Rattle.larch_base.specs.ByNumber.{numbered};
ghost use Rattle.larch_prove_invariant.specs.CalculusFormula.{falsity};
ghost use Rattle.larch_derive.specs.Predicates.{Extends, HasStatement};
ghost use Rattle.larch_derive.specs.declared.builder.Builder.{Builder as is_builder};
ghost use Rattle.larch_prove_invariant.specs.DeriveFormulasConsequences.{Follows, lines_of};
ghost use Rattle.larch_prove_adding.specs.Equation.{IsSaid, sides_in, waiting_in};
ghost use Rattle.larch_prove_adding.specs.Deductions.{Deduction, deductions, first_right};
ghost use Rattle.larch_prove_adding.specs.Deductions.{found_by, left_by, only_right};
ghost use Rattle.larch_prove_adding.specs.Deductions.{second_right};
ghost use Rattle.larch_prove_invariant.specs.ProveMeaningFacts.{deduce};
ghost use Rattle.larch_rewrite_meaning.specs.Sides.{sides_of};
ghost use Rattle.larch_term.specs.Tree.{Tree};
ghost use Rattle.larch_term.specs.Truth.{truth};
ghost use Rattle.larch_term.specs.declared.statement.Statement.TheVariants.{Equation};
ghost use Rattle.larch_term.specs.declared.statement.Statement.{Statement};

use crate::equation::SaidEquation;
use larch_base::Memory;
use larch_derive::Builder;
use larch_prove_invariant::from_derive_formulas::{BothLines, Consequences, deduce};
use larch_term::{BuiltIn, Node, Term, copy};
use std::alloc::Global;

// How many deduction rows there are.
const DEDUCTION_ROWS: u32 = 7;

// The first two arguments of a term; the first one twice where there is no other.
#[derive(Drop)]
struct Places<'a> {
    first: &'a Term,
    second: &'a Term,
}

// What follows from an equation by the first deduction row that matches, the first consequence last.
#[tactic(auto, using(larch_derive::proofs::Growth::extends_same))]
pub(crate) fn consequences_of(
    alloc: Global,
    builder: &mut Builder,
    equation: &SaidEquation,
) -> Result<Option<Vec<SaidEquation>>, Memory>
    requires { IsSaid builder.old equation.now }
    ensures found { IfOk result (λ found. deduce (sides_in equation.now)
        ≡ option_map (λ es. waiting_in es.items) found) }
    ensures says { IfOk result (λ found. IfSome found (λ es. All (IsSaid builder.new) es.items)) }
    ensures extends { Extends builder.old builder.new }
{
    let Some(places) = places_in(&equation.left) else {
        return Ok(None);
    };
    for index in 0..DEDUCTION_ROWS {
        let number = index + 1;
        let lines = follow(alloc, builder, number, equation)?;
        if let Some(lines) = lines {
            let found = consequences_by(alloc, number, &places, lines)?;
            return Ok(Some(found));
        }
    }
    Ok(None)
}

// The lines of what follows from an equation by the deduction row with a number.
fn follow(
    alloc: Global,
    builder: &mut Builder,
    number: u32,
    equation: &SaidEquation,
) -> Result<Option<Consequences>, Memory>
    requires { IsSaid builder.old equation.now }
    ensures follows { IfOk result (λ made. IsSome made
        ↔ ((es : List Statement) × Follows number (Equation equation.now.left equation.now.right) es)) }
    ensures says { IfOk result (λ made. IfSome made (λ found. (es : List Statement)
        → Follows number (Equation equation.now.left equation.now.right) es
        → AllZip (HasStatement builder.new) (lines_of found) es)) }
    ensures extends { Extends builder.old builder.new }
{
    deduce(
        alloc,
        builder,
        number,
        &equation.left,
        &equation.right,
        equation.line,
    )
}

// The first two arguments of a term, if it has any.
fn places_in<'a>(term: &'a Term) -> Option<Places<'a>>
    ensures some { IfSome result (λ p. (d : Deduction) (s : List ℕ) (t u : Tree) → left_by d s t u ≡ term.now
        → found_by d p.first.now p.second.now ≡ found_by d t u) }
    ensures none { IfNone result ((d : Deduction) (s : List ℕ) (t u : Tree) → left_by d s t u ≡ term.now → ⊥) }
{
    let Node::App(_, arguments) = term.node() else {
        return None;
    };
    let [first, further @ ..] = arguments.as_slice() else {
        return None;
    };
    let [second, ..] = further else {
        return Some(Places {
            first,
            second: first,
        });
    };
    Some(Places { first, second })
}

// The consequences by the row with a number of an equation with these arguments on its left side, as lines say them,
// the first consequence last.
fn consequences_by<'a>(
    alloc: Global,
    number: u32,
    places: &Places<'a>,
    lines: Consequences,
) -> Result<Vec<SaidEquation>, Memory>
    ensures { IfOk result (λ es. (b : is_builder) (d : Deduction) → numbered deductions number ≡ Some d
        → AllZip (HasStatement b) (lines_of lines) (found_by d places.now.first.now places.now.second.now)
        → (waiting_in es.items ≡ flat_map sides_of (found_by d places.now.first.now places.now.second.now))
        × All (IsSaid b) es.items) }
{
    match lines {
        Consequences::One(line) => only(alloc, number, places, line),
        Consequences::Both(lines) => both(alloc, number, places, lines),
    }
}

// The only consequence by a row with a number.
fn only<'a>(
    alloc: Global,
    number: u32,
    places: &Places<'a>,
    line: u64,
) -> Result<Vec<SaidEquation>, Memory>
    ensures { IfOk result (λ es. es.items ≡ record {
      left = places.now.first.now;
      right = only_right number places.now.second.now;
      line = line;
    } ∷ []) }
{
    let right = only_right(alloc, number, places.second)?;
    let mut found = Vec::with_capacity(alloc, 1)?;
    push_equation(alloc, &mut found, places.first, right, line)?;
    Ok(found)
}

// What the only argument equals by a row with a number, or the first of two, the second one being given.
fn only_right(alloc: Global, number: u32, second: &Term) -> Result<Term, Memory>
    ensures { IfOk result (λ t. t ≡ only_right number second.now) }
{
    if number == 3 {
        return truth_value(alloc, false);
    }
    if number == 4 {
        return truth_value(alloc, true);
    }
    copy(alloc, second)
}

// Both consequences by a row with a number, the second one first.
fn both<'a>(
    alloc: Global,
    number: u32,
    places: &Places<'a>,
    lines: BothLines,
) -> Result<Vec<SaidEquation>, Memory>
    ensures { IfOk result (λ es. es.items ≡ record {
      left = places.now.second.now;
      right = second_right number;
      line = lines.second;
    } ∷ record { left = places.now.first.now; right = first_right number; line = lines.first } ∷ []) }
{
    let mut found = Vec::with_capacity(alloc, 2)?;
    let right = truth_value(alloc, number == 1)?;
    push_equation(alloc, &mut found, places.second, right, lines.second)?;
    let right = truth_value(alloc, number != 2)?;
    push_equation(alloc, &mut found, places.first, right, lines.first)?;
    Ok(found)
}

// The constant true, or false.
fn truth_value(alloc: Global, value: bool) -> Result<Term, Memory>
    ensures { IfOk result (λ t. t ≡ (if value then truth else falsity)) }
{
    let word = if value { BuiltIn::True } else { BuiltIn::False };
    word.constant(alloc)
}

// Puts an equation behind others.
fn push_equation(
    alloc: Global,
    found: &mut Vec<SaidEquation>,
    left: &Term,
    right: Term,
    line: u64,
) -> Result<(), Memory>
    ensures { OnOk result (found.new.items
        ≡ found.old.items ++ record { left = left.now; right = right; line = line } ∷ []) }
{
    let left = copy(alloc, left)?;
    found.push(SaidEquation { left, right, line })?;
    Ok(())
}
