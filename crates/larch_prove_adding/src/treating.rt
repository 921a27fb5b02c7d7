ghost use Rattle.std.specs.Prelude.{◌≡◌, ◌≤◌, ◌++◌, true, false, All, IfOk, IfErr, OnOk};
ghost use Rattle.larch_prove_invariant.specs.CalculusFormula.{falsity};
ghost use Rattle.larch_derive.specs.Predicates.{Extends, HasEquation};
ghost use Rattle.larch_derive.specs.declared.builder.Builder.{Builder as is_builder};
ghost use Rattle.larch_prove_adding.specs.Equation.{IsSaid, IsSmall, sides_in};
ghost use Rattle.larch_prove_adding.specs.KeptFacts.{AreSaid, facts_of};
ghost use Rattle.larch_prove_adding.specs.Turns.{HasRoom, IsOpposite, Leads, MayPut, MayRefuse, course_of};
ghost use Rattle.larch_prove_invariant.specs.ProveMeaningFacts.{Keep, deduce, is_value, orient, replaced_or_kept};
ghost use Rattle.larch_prove_invariant.specs.ProveMeaningFacts.{is_full, treatment, truth_to_right, with_rule};
ghost use Rattle.larch_rewrite.specs.RuleSet.{BelongsTo};
ghost use Rattle.larch_store.specs.Stored.{Grows, most_nodes};
ghost use Rattle.larch_term.specs.Tree.{nodes};
ghost use Rattle.larch_term.specs.Truth.{truth};

use crate::deducing::consequences_of;
use crate::equation::{SaidEquation, exchange_sides};
use crate::facts::Facts;
use crate::orienting::orient_equation;
use larch_base::{FactName, Memory};
use larch_derive::Builder;
use larch_prove_invariant::from_order::Precedence;
use larch_rewrite::RewriteRefusal;
use larch_rewrite::from_derive_lines::push_sym;
use larch_store::Store;
use larch_term::{BuiltIn, Term, is_truth, same_term};
use std::alloc::Global;

/// How an equation is added: by which precedence its rules are oriented, under which name, and with which budget for
/// the whole adding.
#[derive(Drop)]
pub struct Manner<'a> {
    pub precedence: &'a Precedence,
    pub name: FactName,
    pub budget: u32,
}

// How an adding goes on: the equations that wait, the last of which is the next one; how many rules were made; and what
// is left of the budget.
#[derive(Drop)]
pub(crate) struct Adding {
    pub(crate) waiting: Vec<SaidEquation>,
    pub(crate) made: u32,
    pub(crate) left: u32,
}

// An equation whose sides are normal is treated: it is dropped, or contradicts, or others take its place, or it is a
// rule.
#[tactic(auto, using(larch_derive::proofs::Growth::extends_same, larch_store::proofs::Growth::grows_refl))]
pub(crate) fn treat<'a>(
    facts: &mut Facts,
    store: &mut Store,
    builder: &mut Builder,
    manner: &Manner<'a>,
    adding: &mut Adding,
    equation: SaidEquation,
) -> Result<(), RewriteRefusal>
    requires equation { IsSaid builder.old equation }
    requires small { IsSmall equation }
    requires said { AreSaid builder.old facts.old }
    requires kept { BelongsTo store.old facts.old.rules }
    requires waiting { All (IsSaid builder.old) adding.old.waiting.items }
    requires room { HasRoom adding.old.made facts.old }
    ensures treated { OnOk result (Leads (treatment manner.now.precedence.now (sides_in equation)) manner.now.name
        (course_of adding.old.made adding.old.waiting.items facts.old)
        (course_of adding.new.made adding.new.waiting.items facts.new)) }
    ensures refused { IfErr result
        (MayRefuse (treatment manner.now.precedence.now (sides_in equation)) (facts_of facts.old)) }
    ensures said { OnOk result (AreSaid builder.new facts.new) }
    ensures kept { OnOk result (BelongsTo store.new facts.new.rules) }
    ensures waiting { OnOk result (All (IsSaid builder.new) adding.new.waiting.items) }
    ensures room { OnOk result (HasRoom adding.new.made facts.new) }
    ensures left { adding.new.left ≡ adding.old.left }
    ensures grows { Grows store.old store.new }
    ensures extends { Extends builder.old builder.new }
{
    let alloc = *adding.waiting.allocator();
    if same_term(&equation.left, &equation.right) {
        return Ok(());
    }
    let equation = with_truth_right(alloc, builder, equation)?;
    let contradicts = is_value(alloc, &equation.left)?;
    if contradicts {
        contradict(facts, builder, &equation)?;
        return Ok(());
    }
    replace_or_keep(facts, store, builder, manner, adding, equation)
}

// Whether a term is true or false.
#[tactic(auto, using(crate::proofs::Values::value_told))]
fn is_value(alloc: Global, term: &Term) -> Result<bool, Memory>
    ensures { IfOk result (λ yes. yes ≡ is_value term.now) }
{
    if is_truth(term) {
        return Ok(true);
    }
    let falsity = BuiltIn::False.constant(alloc)?;
    Ok(same_term(term, &falsity))
}

// The equation; a truth value on the left alone goes to the right.
#[tactic(auto, using(larch_derive::proofs::Growth::extends_same))]
fn with_truth_right(
    alloc: Global,
    builder: &mut Builder,
    equation: SaidEquation,
) -> Result<SaidEquation, Memory>
    requires said { IsSaid builder.old equation }
    requires small { IsSmall equation }
    ensures sides { IfOk result (λ e. sides_in e ≡ truth_to_right (sides_in equation)) }
    ensures small { IfOk result IsSmall }
    ensures says { IfOk result (IsSaid builder.new) }
    ensures extends { Extends builder.old builder.new }
{
    if is_value(alloc, &equation.left)? && !is_value(alloc, &equation.right)? {
        let exchanged = exchange_sides(builder, equation)?;
        return Ok(exchanged);
    }
    Ok(equation)
}

// The facts contradict each other by an equation of true and false.
#[tactic(auto, using(larch_derive::proofs::Growth::extends_same))]
fn contradict(
    facts: &mut Facts,
    builder: &mut Builder,
    equation: &SaidEquation,
) -> Result<(), Memory>
    requires equation { IsSaid builder.old equation.now }
    requires opposite { IsOpposite (sides_in equation.now) }
    requires said { AreSaid builder.old facts.old }
    ensures rules { facts.new.rules ≡ facts.old.rules }
    ensures contradictory { OnOk result ((facts_of facts.new).contradictory ≡ true) }
    ensures said { OnOk result (AreSaid builder.new facts.new) }
    ensures extends { Extends builder.old builder.new }
{
    let line = absurd_line(builder, equation)?;
    facts.contradict(line);
    Ok(())
}

// The line that says that true is false, from an equation of both.
#[tactic(auto, using(larch_derive::proofs::Growth::extends_same))]
fn absurd_line(builder: &mut Builder, equation: &SaidEquation) -> Result<u64, Memory>
    requires equation { IsSaid builder.old equation.now }
    requires opposite { IsOpposite (sides_in equation.now) }
    ensures says { IfOk result (λ n. HasEquation builder.new n truth falsity) }
    ensures extends { Extends builder.old builder.new }
{
    if is_truth(&equation.left) {
        return Ok(equation.line);
    }
    push_sym(builder, equation.line)
}

// What follows from an equation by a deduction row waits in its place; or else it is a rule.
#[tactic(auto, using(larch_derive::proofs::Growth::extends_same, larch_store::proofs::Growth::grows_refl))]
fn replace_or_keep<'a>(
    facts: &mut Facts,
    store: &mut Store,
    builder: &mut Builder,
    manner: &Manner<'a>,
    adding: &mut Adding,
    equation: SaidEquation,
) -> Result<(), RewriteRefusal>
    requires equation { IsSaid builder.old equation }
    requires small { IsSmall equation }
    requires said { AreSaid builder.old facts.old }
    requires kept { BelongsTo store.old facts.old.rules }
    requires waiting { All (IsSaid builder.old) adding.old.waiting.items }
    requires room { HasRoom adding.old.made facts.old }
    ensures treated { OnOk result (Leads
        (replaced_or_kept manner.now.precedence.now (sides_in equation) (deduce (sides_in equation))) manner.now.name
        (course_of adding.old.made adding.old.waiting.items facts.old)
        (course_of adding.new.made adding.new.waiting.items facts.new)) }
    ensures refused { IfErr result (MayRefuse
        (replaced_or_kept manner.now.precedence.now (sides_in equation) (deduce (sides_in equation)))
        (facts_of facts.old)) }
    ensures said { OnOk result (AreSaid builder.new facts.new) }
    ensures kept { OnOk result (BelongsTo store.new facts.new.rules) }
    ensures waiting { OnOk result (All (IsSaid builder.new) adding.new.waiting.items) }
    ensures room { OnOk result (HasRoom adding.new.made facts.new) }
    ensures left { adding.new.left ≡ adding.old.left }
    ensures grows { Grows store.old store.new }
    ensures extends { Extends builder.old builder.new }
{
    let alloc = *adding.waiting.allocator();
    if let Some(found) = consequences_of(alloc, builder, &equation)? {
        wait_before(&mut adding.waiting, found)?;
        return Ok(());
    }
    keep(facts, store, builder, manner, adding, equation)
}

// Further equations wait before the others.
fn wait_before(waiting: &mut Vec<SaidEquation>, found: Vec<SaidEquation>) -> Result<(), Memory>
    ensures { OnOk result (waiting.new.items ≡ waiting.old.items ++ found.items) }
{
    let mut found = found;
    waiting.append(&mut found)?;
    Ok(())
}

// The rule that an equation makes goes behind the other facts.
#[tactic(auto, using(larch_derive::proofs::Growth::extends_same, larch_store::proofs::Growth::grows_refl))]
fn keep<'a>(
    facts: &mut Facts,
    store: &mut Store,
    builder: &mut Builder,
    manner: &Manner<'a>,
    adding: &mut Adding,
    equation: SaidEquation,
) -> Result<(), RewriteRefusal>
    requires equation { IsSaid builder.old equation }
    requires small { IsSmall equation }
    requires kept { BelongsTo store.old facts.old.rules }
    requires said { AreSaid builder.old facts.old }
    requires waiting { All (IsSaid builder.old) adding.old.waiting.items }
    requires room { HasRoom adding.old.made facts.old }
    ensures treated { OnOk result (Leads (Keep (orient manner.now.precedence.now (sides_in equation))) manner.now.name
        (course_of adding.old.made adding.old.waiting.items facts.old)
        (course_of adding.new.made adding.new.waiting.items facts.new)) }
    ensures refused { IfErr result
        (MayRefuse (Keep (orient manner.now.precedence.now (sides_in equation))) (facts_of facts.old)) }
    ensures said { OnOk result (AreSaid builder.new facts.new) }
    ensures kept { OnOk result (BelongsTo store.new facts.new.rules) }
    ensures waiting { OnOk result (All (IsSaid builder.new) adding.new.waiting.items) }
    ensures room { OnOk result (HasRoom adding.new.made facts.new) }
    ensures left { adding.new.left ≡ adding.old.left }
    ensures grows { Grows store.old store.new }
    ensures extends { Extends builder.old builder.new }
{
    let alloc = *adding.waiting.allocator();
    let rule = orient_equation(alloc, builder, manner.precedence, equation)?;
    let part = adding.made.saturating_add(1);
    put_part(facts, store, manner.name, part, &rule)?;
    adding.made = part;
    Ok(())
}

// Puts a rule behind the other facts, as a part of what has a name.
fn put_part(
    facts: &mut Facts,
    store: &mut Store,
    name: FactName,
    part: u32,
    rule: &SaidEquation,
) -> Result<(), RewriteRefusal>
    requires kept { BelongsTo store.old facts.old.rules }
    ensures facts { OnOk result (facts_of facts.new ≡ with_rule name part (sides_in rule.now) (facts_of facts.old)) }
    ensures room { OnOk result (is_full (facts_of facts.old) ≡ false) }
    ensures small { OnOk result (nodes rule.now.left ≤ most_nodes) }
    ensures refused { IfErr result (MayPut rule.now.left rule.now.right (facts_of facts.old)) }
    ensures said { OnOk result ((b : is_builder) → AreSaid b facts.old → IsSaid b rule.now → AreSaid b facts.new) }
    ensures kept { OnOk result (BelongsTo store.new facts.new.rules) }
    ensures grows { Grows store.old store.new }
{
    let name = FactName {
        letter: name.letter,
        number: name.number,
        part,
    };
    facts.put(store, name, &rule.left, &rule.right, rule.line)?;
    Ok(())
}
