ghost use Rattle.std.specs.Prelude.{◌≡◌, ◌<◌, ◌∷◌, ℕ, List, true, IfOk};
ghost use Rattle.larch_calculus.specs.Formula.{conjunction};
ghost use Rattle.larch_derive.specs.Predicates.{Extends, HasEquation};
ghost use Rattle.larch_methods.specs.Conjuncts.{AreTrue, HasConjuncts, is_headed_by};
ghost use Rattle.larch_methods.specs.Methods.{IsKnownFormula};
ghost use Rattle.larch_methods.specs.Rows.{HasArguments};
ghost use Rattle.larch_prove_plans.specs.ProveMeaningPlans.{conjuncts};
ghost use Rattle.larch_term.specs.Tree.{Tree, nodes};
ghost use Rattle.larch_term.specs.Truth.{truth};

use crate::arguments::{Two, arguments_of};
use crate::rows::{SaidArgument, push_settled};
use larch_base::Memory;
use larch_derive::Builder;
use larch_derive_lines::push_trans;
use larch_term::{BuiltIn, Node, Operator, Term, bool_sort};
use std::alloc::Global;

// The row that says what anything and true come to.
const AND_TRUE: u64 = 5;

// What the conjuncts of a term show: the line that says that the term is true, and the lines behind theirs.
#[derive(Drop)]
struct Joined<'a> {
    line: u64,
    behind: &'a [u64],
}

/// A line that says that the goal is true, by the lines of its conjuncts, in order. A refused call may leave lines
/// behind, none of them bad.
#[tactic(auto, using(larch_derive::proofs::Growth::extends_same))]
pub fn finish_conjunction(
    alloc: Global,
    builder: &mut Builder,
    goal: &Term,
    lines: &[u64],
) -> Result<u64, Memory>
    ensures says { IfOk result (λ n. IsKnownFormula builder.old goal.now
        → AreTrue builder.old (conjuncts goal.now) lines.now → HasEquation builder.new n goal.now truth) }
    ensures extends { IsKnownFormula builder.old goal.now
        → AreTrue builder.old (conjuncts goal.now) lines.now → Extends builder.old builder.new }
{
    let sort = bool_sort(alloc)?;
    let operator = BuiltIn::And.operator(alloc, &sort)?;
    let joined = join(alloc, builder, &operator, goal, lines)?;
    Ok(joined.line)
}

// A line that says that a term is true, by the first lines of a list.
#[cycle(join)]
#[tactic(auto, using(crate::proofs::Joining::only_says, crate::proofs::Joining::only_behind, larch_derive::proofs::Growth::extends_same))]
fn join<'a>(
    alloc: Global,
    builder: &mut Builder,
    operator: &Operator,
    goal: &Term,
    lines: &'a [u64],
) -> Result<Joined<'a>, Memory>
    ensures says { IfOk result (λ joined. (those behind : List ℕ)
        → HasConjuncts builder.old operator.now goal.now lines.now those behind
        → HasEquation builder.new joined.line goal.now truth) }
    ensures behind { IfOk result (λ joined. (those behind : List ℕ)
        → HasConjuncts builder.old operator.now goal.now lines.now those behind → joined.behind.now ≡ behind) }
    ensures extends { (those behind : List ℕ)
        → HasConjuncts builder.old operator.now goal.now lines.now those behind → Extends builder.old builder.new }
{
    if is_headed_by(operator, goal) {
        let joined = join_both(alloc, builder, operator, goal, lines)?;
        Ok(joined)
    } else {
        let joined = first_of(lines)?;
        Ok(joined)
    }
}

// A term that isn't a conjunction has one line.
fn first_of<'a>(lines: &'a [u64]) -> Result<Joined<'a>, Memory>
    ensures { IfOk result (λ joined. lines.now ≡ joined.line ∷ joined.behind.now) }
{
    let [line, behind @ ..] = lines else {
        return Err(Memory);
    };
    Ok(Joined {
        line: *line,
        behind,
    })
}

// The lines of a conjunction are those of its first argument, and then those of its second.
#[cycle(join)]
#[tactic(auto, using(larch_derive::proofs::Growth::extends_same))]
fn join_both<'a>(
    alloc: Global,
    builder: &mut Builder,
    operator: &Operator,
    goal: &Term,
    lines: &'a [u64],
) -> Result<Joined<'a>, Memory>
    ensures says { IfOk result (λ joined. (those behind : List ℕ) → is_headed_by operator.now goal.now ≡ true
        → HasConjuncts builder.old operator.now goal.now lines.now those behind
        → HasEquation builder.new joined.line goal.now truth) }
    ensures behind { IfOk result (λ joined. (those behind : List ℕ) → is_headed_by operator.now goal.now ≡ true
        → HasConjuncts builder.old operator.now goal.now lines.now those behind → joined.behind.now ≡ behind) }
    ensures extends { (those behind : List ℕ) → is_headed_by operator.now goal.now ≡ true
        → HasConjuncts builder.old operator.now goal.now lines.now those behind → Extends builder.old builder.new }
{
    let two = parts_of(goal)?;
    let first = join(alloc, builder, operator, two.first, lines)?;
    let second = join(alloc, builder, operator, two.second, first.behind)?;
    let line = push_both(alloc, builder, goal, two.first, first.line, second.line)?;
    Ok(Joined {
        line,
        behind: second.behind,
    })
}

// The arguments of a term that has two; both have fewer nodes.
#[tactic(auto, using(crate::proofs::Joining::first_falls, crate::proofs::Joining::second_falls))]
fn parts_of<'a>(term: &'a Term) -> Result<Two<'a>, Memory>
    ensures has { IfOk result (λ two. HasArguments term.now two.first.now two.second.now) }
    ensures first { IfOk result (λ two. nodes two.first.now < nodes term.now) }
    ensures second { IfOk result (λ two. nodes two.second.now < nodes term.now) }
{
    let two = arguments_of(term)?;
    Ok(two)
}

// Whether an operator is the head of a term.
fn is_headed_by(operator: &Operator, term: &Term) -> bool
    ensures { result ≡ is_headed_by operator.now term.now }
{
    match term.node() {
        Node::App(head, _) => *operator == *head,
        Node::Var(_, _) => false,
    }
}

// A line that says that a conjunction is true, by lines that say that both of its arguments are.
#[tactic(auto, using(larch_derive::proofs::Growth::extends_same))]
fn push_both(
    alloc: Global,
    builder: &mut Builder,
    whole: &Term,
    first: &Term,
    line: u64,
    further: u64,
) -> Result<u64, Memory>
    ensures says { IfOk result (λ n. (t u : Tree) → whole.now ≡ conjunction t u → first.now ≡ t
        → IsKnownFormula builder.old whole.now → HasEquation builder.old line t truth
        → HasEquation builder.old further u truth → HasEquation builder.new n whole.now truth) }
    ensures extends { (t u : Tree) → whole.now ≡ conjunction t u → first.now ≡ t
        → IsKnownFormula builder.old whole.now → HasEquation builder.old line t truth
        → HasEquation builder.old further u truth → Extends builder.old builder.new }
{
    let said = SaidArgument {
        argument: 2,
        line: further,
    };
    let same = push_settled(alloc, builder, whole, said, AND_TRUE, first)?;
    let shown = push_trans(alloc, builder, same, line)?;
    Ok(shown)
}
