ghost use Rattle.std.specs.Prelude.{◌≡◌, ◌↔◌, ℕ, List, not, IfOk, IfSome, IfNone, IsSome, IsTrue};
ghost use Rattle.std.specs.List.{AllZip};
ghost use Rattle.larch_base.specs.ByNumber.{numbered};
ghost use Rattle.larch_derive_lines.specs.CalculusFormula.{negation};
ghost use Rattle.larch_derive_lines.specs.DerivePredicates.{Extends, HasEquation, HasStatement};
ghost use Rattle.larch_derive_formulas.specs.Consequences.{Follows, arguments_of, found_by};
ghost use Rattle.larch_derive_formulas.specs.Consequences.{given_by, head_of, deduction_left};
ghost use Rattle.larch_derive_formulas.specs.Consequences.{last_sort, lines_of, sort_within, truth_value};
ghost use Rattle.larch_derive_formulas.specs.declared.consequences.TheConstants.{DEDUCTIONS};
ghost use Rattle.larch_term.specs.BuiltIn.{built_in};
ghost use Rattle.larch_term.specs.Tree.{Tree, forest_of, more, none};
ghost use Rattle.larch_term.specs.declared.statement.Statement.TheVariants.{Equation};
ghost use Rattle.larch_term.specs.declared.statement.Statement.{Statement};

use crate::deductions::{
    BothLines, push_conjuncts, push_disjuncts, push_false, push_implication_parts, push_true,
};
use crate::formulas::push_equivalent;
use crate::instances::Places;
use larch_base::Memory;
use larch_derive_lines::from_derive::Builder;
use larch_derive_lines::push_equal;
use larch_term::{BuiltIn, Node, Operator, Term, same_operator, same_term};
use std::alloc::Global;

// The deduction rows by the word at the head of their equations' left sides. For a negation there are two, one where it
// is true and one where it is false.
#[derive(Clone, Copy)]
pub(crate) enum Deduction {
    Conjunction,
    Disjunction,
    Negation(bool),
    Implication,
    Equality,
    Equivalence,
}

impl Deduction {
    ghost use Rattle.std.specs.Prelude.{◌≡◌};
    ghost use Rattle.larch_derive_formulas.specs.Consequences.{head_of, value_of};

    // The word at the head of the left side of its equation.
    fn head(self) -> BuiltIn
        ensures { result ≡ head_of self }
    {
        match self {
            Deduction::Conjunction => BuiltIn::And,
            Deduction::Disjunction => BuiltIn::Or,
            Deduction::Negation(_) => BuiltIn::Not,
            Deduction::Implication => BuiltIn::Implies,
            Deduction::Equality => BuiltIn::Equal,
            Deduction::Equivalence => BuiltIn::Iff,
        }
    }

    // Whether the right side is true. Else it is false.
    fn value(self) -> bool
        ensures { result ≡ value_of self }
    {
        match self {
            Deduction::Negation(value) => value,
            Deduction::Conjunction | Deduction::Equality | Deduction::Equivalence => true,
            Deduction::Disjunction | Deduction::Implication => false,
        }
    }
}

const DEDUCTIONS: [Deduction; 7] = [
    Deduction::Conjunction,
    Deduction::Disjunction,
    Deduction::Negation(true),
    Deduction::Negation(false),
    Deduction::Implication,
    Deduction::Equality,
    Deduction::Equivalence,
];

/// The lines of what follows from an equation, in the row's order.
#[derive(Clone, Copy, Debug, PartialEq, Eq)]
pub enum Consequences {
    One(u64),
    Both(BothLines),
}

/// Lines that say what follows from an equation by the deduction row with a number, from a line that says the equation.
/// `None` comes exactly where no terms for the row's variables make its equation this one. A refused call may leave
/// lines behind, none of them bad.
#[tactic(auto, using(larch_derive::proofs::Growth::extends_same))]
pub fn deduce(
    alloc: Global,
    builder: &mut Builder,
    number: u32,
    left: &Term,
    right: &Term,
    line: u64,
) -> Result<Option<Consequences>, Memory>
    ensures follows { IfOk result (λ made. IsSome made
        ↔ ((es : List Statement) × Follows number (Equation left.now right.now) es)) }
    ensures says { IfOk result (λ made. IfSome made (λ found. (es : List Statement)
        → Follows number (Equation left.now right.now) es → HasEquation builder.old line left.now right.now
        → AllZip (HasStatement builder.new) (lines_of found) es)) }
    ensures extends { HasEquation builder.old line left.now right.now → Extends builder.old builder.new }
{
    let Some(deduction) = deduction_of(number) else {
        return Ok(None);
    };
    let Some(places) = places_in(alloc, deduction, left, right)? else {
        return Ok(None);
    };
    let found = lines_by(alloc, builder, deduction, &places, line)?;
    Ok(Some(found))
}

// The row with a number, counted from 1.
fn deduction_of(number: u32) -> Option<Deduction>
    ensures { result ≡ numbered DEDUCTIONS number }
{
    let index = number.checked_sub(1)? as usize;
    if index >= DEDUCTIONS.len() {
        return None;
    }
    Some(DEDUCTIONS[index])
}

// The terms that make a row's equation this one.
fn places_in<'a>(
    alloc: Global,
    deduction: Deduction,
    left: &'a Term,
    right: &Term,
) -> Result<Option<Places<'a>>, Memory>
    ensures some { IfOk result (λ o. IfSome o (λ p. given_by deduction (sort_within left.now) p.first.now p.second.now
        ≡ Equation left.now right.now)) }
    ensures none { IfOk result (λ o. IfNone o ((s : List ℕ) (t u : Tree)
        → given_by deduction s t u ≡ Equation left.now right.now → ⊥)) }
{
    let value = truth_value(alloc, deduction.value())?;
    if !same_term(right, &value) {
        return Ok(None);
    }
    let Some(places) = places_under(alloc, deduction, left)? else {
        return Ok(None);
    };
    Ok(Some(places))
}

// The constant true, or false.
fn truth_value(alloc: Global, value: bool) -> Result<Term, Memory>
    ensures { IfOk result (λ t. t ≡ truth_value value) }
{
    let word = if value { BuiltIn::True } else { BuiltIn::False };
    let term = word.constant(alloc)?;
    Ok(term)
}

// The terms that make the left side of a row's equation this term.
fn places_under<'a>(
    alloc: Global,
    deduction: Deduction,
    term: &'a Term,
) -> Result<Option<Places<'a>>, Memory>
    ensures some { IfOk result (λ o. IfSome o (λ p.
        deduction_left deduction (sort_within term.now) p.first.now p.second.now ≡ term.now)) }
    ensures none { IfOk result (λ o. IfNone o ((s : List ℕ) (t u : Tree)
        → deduction_left deduction s t u ≡ term.now → ⊥)) }
{
    let Node::App(operator, arguments) = term.node() else {
        return Ok(None);
    };
    if !is_head(alloc, deduction, operator)? {
        return Ok(None);
    }
    let Some(places) = places_of(deduction, arguments.as_slice()) else {
        return Ok(None);
    };
    Ok(Some(places))
}

// Whether an operator is the word at the head of a row's equation, at some sort.
fn is_head(alloc: Global, deduction: Deduction, operator: &Operator) -> Result<bool, Memory>
    ensures { IfOk result (λ yes. IsTrue yes ↔ (built_in (head_of deduction) (last_sort operator.now) ≡ operator.now)) }
{
    let Some(sort) = operator.domain().last() else {
        return Ok(false);
    };
    let head = deduction.head().operator(alloc, sort)?;
    Ok(same_operator(&head, operator))
}

// The terms that make the arguments in a row's equation these.
fn places_of<'a>(deduction: Deduction, arguments: &'a [Term]) -> Option<Places<'a>>
    ensures some { IfSome result (λ p. arguments_of deduction p.first.now p.second.now ≡ forest_of arguments.now) }
    ensures none { IfNone result ((t u : Tree) → arguments_of deduction t u ≡ forest_of arguments.now → ⊥) }
{
    match deduction {
        Deduction::Negation(_) => only(arguments),
        Deduction::Conjunction
        | Deduction::Disjunction
        | Deduction::Implication
        | Deduction::Equality
        | Deduction::Equivalence => both(arguments),
    }
}

// A term by itself.
fn only<'a>(terms: &'a [Term]) -> Option<Places<'a>>
    ensures some { IfSome result (λ p. more p.first.now none ≡ forest_of terms.now) }
    ensures none { IfNone result ((t : Tree) → more t none ≡ forest_of terms.now → ⊥) }
{
    let [term, further @ ..] = terms else {
        return None;
    };
    if let [_, ..] = further {
        return None;
    }
    Some(Places {
        first: term,
        second: term,
    })
}

// Two terms.
fn both<'a>(terms: &'a [Term]) -> Option<Places<'a>>
    ensures some { IfSome result (λ p. more p.first.now (more p.second.now none) ≡ forest_of terms.now) }
    ensures none { IfNone result ((t u : Tree) → more t (more u none) ≡ forest_of terms.now → ⊥) }
{
    let [first, further @ ..] = terms else {
        return None;
    };
    let [second, others @ ..] = further else {
        return None;
    };
    if let [_, ..] = others {
        return None;
    }
    Some(Places { first, second })
}

// The lines of a row's consequences, from a line that says its equation.
#[tactic(auto, using(larch_derive::proofs::Growth::extends_same))]
fn lines_by(
    alloc: Global,
    builder: &mut Builder,
    deduction: Deduction,
    places: &Places,
    line: u64,
) -> Result<Consequences, Memory>
    ensures says { IfOk result (λ found. (s : List ℕ)
        → HasStatement builder.old line (given_by deduction s places.now.first.now places.now.second.now)
        → AllZip (HasStatement builder.new) (lines_of found)
        (found_by deduction places.now.first.now places.now.second.now)) }
    ensures extends { (s : List ℕ)
        → HasStatement builder.old line (given_by deduction s places.now.first.now places.now.second.now)
        → Extends builder.old builder.new }
{
    let Places { first, second } = places;
    match deduction {
        Deduction::Conjunction => {
            let lines = push_conjuncts(alloc, builder, first, second, line)?;
            Ok(Consequences::Both(lines))
        }
        Deduction::Disjunction => {
            let lines = push_disjuncts(alloc, builder, first, second, line)?;
            Ok(Consequences::Both(lines))
        }
        Deduction::Implication => {
            let lines = push_implication_parts(alloc, builder, first, second, line)?;
            Ok(Consequences::Both(lines))
        }
        Deduction::Negation(value) => {
            let number = push_negated(alloc, builder, value, first, line)?;
            Ok(Consequences::One(number))
        }
        Deduction::Equality => {
            let number = push_equal(builder, line)?;
            Ok(Consequences::One(number))
        }
        Deduction::Equivalence => {
            let number = push_equivalent(alloc, builder, first, second, line)?;
            Ok(Consequences::One(number))
        }
    }
}

// A line that says a term's value, from a line that says that its negation has the other one.
#[tactic(auto, using(larch_derive::proofs::Growth::extends_same))]
fn push_negated(
    alloc: Global,
    builder: &mut Builder,
    value: bool,
    term: &Term,
    line: u64,
) -> Result<u64, Memory>
    ensures says { IfOk result (λ n. HasEquation builder.old line (negation term.now) (truth_value value)
        → HasEquation builder.new n term.now (truth_value (not value))) }
    ensures extends { HasEquation builder.old line (negation term.now) (truth_value value)
        → Extends builder.old builder.new }
{
    if value {
        let number = push_false(alloc, builder, term, line)?;
        return Ok(number);
    }
    let number = push_true(alloc, builder, term, line)?;
    Ok(number)
}
