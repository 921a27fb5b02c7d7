ghost use Rattle.std.specs.Prelude.{◌≡◌, ◌++◌, [], map, option_map, IfOk, OnOk};
ghost use Rattle.larch_prove_plans.specs.Planning.{alone, plan_of, subgoal_of};
ghost use Rattle.larch_prove_meaning.specs.Plans.{conjunction_plan, conjuncts, conjuncts_in, shared_subgoal};
ghost use Rattle.larch_term.specs.BuiltIn.{bool_sort, built_in};
ghost use Rattle.larch_term.specs.Tree.{forest_of};

use crate::shapes::pair_by;
use crate::subgoals::{Plan, Subgoal, Subgoals};
use larch_base::{Memory, Sequence};
use larch_term::{BuiltIn, Node, Operator, Term, bool_sort, copy};
use std::alloc::Global;

// Of a conjunction: each conjunct is a subgoal.
pub(crate) fn conjunction(alloc: Global, goal: &Term) -> Result<Option<Plan>, Memory>
    ensures { IfOk result (λ made. made ≡ option_map plan_of (conjunction_plan goal.now)) }
{
    let sort = bool_sort(alloc)?;
    let and = BuiltIn::And.operator(alloc, &sort)?;
    if pair_by(goal, &and).is_none() {
        return Ok(None);
    }
    let subgoals = conjunct_subgoals(alloc, &and, goal)?;
    Ok(Some(Plan {
        constants: Sequence::new(alloc),
        subgoals,
    }))
}

#[tactic(auto, using(larch_base::proofs::Lists::map_map))]
fn conjunct_subgoals(alloc: Global, and: &Operator, goal: &Term) -> Result<Subgoals, Memory>
    requires { and.now ≡ built_in BuiltIn.And bool_sort }
    ensures { IfOk result (λ ss. ss ≡ map subgoal_of (map (shared_subgoal []) (conjuncts goal.now))) }
{
    let mut found = Vec::new(alloc);
    add_conjuncts(alloc, and, goal, &mut found)?;
    let subgoals = alone(alloc, found)?;
    Ok(subgoals)
}

// Each goal by itself.
fn alone(alloc: Global, goals: Vec<Term>) -> Result<Subgoals, Memory>
    ensures { IfOk result (λ ss. ss ≡ map alone goals.items) }
{
    let mut subgoals = Sequence::new(alloc);
    for goal in goals {
        subgoals.push(Subgoal {
            constants: Sequence::new(alloc),
            hypotheses: Sequence::new(alloc),
            goal,
        })?;
    }
    Ok(subgoals)
}

// Puts the conjuncts of a term behind others, nested conjunctions taken apart.
#[cycle(conjuncts)]
#[tactic(auto, using(larch_term::specs::Tree::nodes_all_is_sum))]
fn add_conjuncts(
    alloc: Global,
    and: &Operator,
    term: &Term,
    found: &mut Vec<Term>,
) -> Result<(), Memory>
    requires { and.now ≡ built_in BuiltIn.And bool_sort }
    ensures { OnOk result (found.new.items ≡ found.old.items ++ conjuncts term.now) }
{
    match term.node() {
        Node::Var(_, _) => {
            let term = copy(alloc, term)?;
            found.push(term)?;
        }
        Node::App(operator, arguments) => {
            if *and == *operator {
                add_all_conjuncts(alloc, and, arguments.as_slice(), found)?;
            } else {
                let term = copy(alloc, term)?;
                found.push(term)?;
            }
        }
    }
    Ok(())
}

#[cycle(conjuncts)]
#[tactic(auto, using(larch_term::specs::Tree::nodes_all_is_sum))]
fn add_all_conjuncts(
    alloc: Global,
    and: &Operator,
    terms: &[Term],
    found: &mut Vec<Term>,
) -> Result<(), Memory>
    requires { and.now ≡ built_in BuiltIn.And bool_sort }
    ensures { OnOk result (found.new.items ≡ found.old.items ++ conjuncts_in (forest_of terms.now)) }
{
    for term in terms {
        add_conjuncts(alloc, and, term, found)?;
    }
    Ok(())
}
