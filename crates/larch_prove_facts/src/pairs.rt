ghost use Rattle.std.specs.Prelude.{◌≡◌, All, IfErr, IfOk, Ok, OnOk, find, map};
ghost use Rattle.larch_complete_pairs.specs.CompleteMeaningPairs.{as_equation};
ghost use Rattle.larch_complete_pairs.specs.Said.{IsPairOf, IsSaidRule, rule_in};
ghost use Rattle.larch_derive.specs.Predicates.{Extends};
ghost use Rattle.larch_derive.specs.declared.builder.Builder.{Builder as is_builder};
ghost use Rattle.larch_complete_pairs.specs.DeriveBoxesBoxes.{IsPart};
ghost use Rattle.larch_pairs_critical.specs.Overlap.{IsApplication};
ghost use Rattle.larch_pairs_critical.specs.Pairs.{critical_pairs};
ghost use Rattle.larch_prove_work.specs.ProveAddingEquation.{IsSaid, sides_in};
ghost use Rattle.larch_prove_work.specs.ProveAddingKeptFacts.{AreSaid, facts_of};
ghost use Rattle.larch_prove_work.specs.ProveDraftProving.{IsProvable};
ghost use Rattle.larch_prove_facts.specs.Pairs.{RewriteApplications, pairs_among};
ghost use Rattle.larch_prove_work.specs.ProveInvariantHolding.{open_constants};
ghost use Rattle.larch_prove_meaning.specs.Levels.{Proof};
ghost use Rattle.larch_prove_meaning.specs.Steps.{carried_out, equations_of, has_name, sides_or};
ghost use Rattle.larch_prove_work.specs.ProveSettingsTelling.{Tells};
ghost use Rattle.larch_prove_work.specs.Work.{IsSomeWork, Makes, MayWork};
ghost use Rattle.larch_script_commands.specs.Same.{same_fact_name};
ghost use Rattle.larch_script_commands.specs.declared.command.CommandKind.TheVariants.{CriticalPairs};

use crate::derivation::derive_facts;
use crate::named::fact_named;
use larch_base::{Code, FactName, Memory};
use larch_complete_pairs::{SaidEquation as SaidPair, SaidRule, say_pair};
use larch_derive::Builder;
use larch_pairs::PairRefusal;
use larch_pairs_critical::{Pair, Rule, critical_pairs};
use larch_prove_work::from_prove_adding::{Facts, SaidEquation};
use larch_prove_work::from_prove_draft::Draft;
use larch_prove_work::from_prove_settings::CommandRefusal;
use larch_prove_work::{Claim, Work};
use std::alloc::Global;

/// The command that adds the critical pairs of the second fact's left side in the first one's, all of which are formed
/// before the first is added, and what that leads to. Those that remain once the goal is proved aren't added. A refusal
/// comes exactly where it is the defined one, or where memory runs out; then what was worked on may not be used.
pub fn pair_facts(
    alloc: Global,
    claim: &Claim,
    work: &mut Work,
    first: &FactName,
    second: &FactName,
) -> Result<(), CommandRefusal>
    requires provable { IsProvable claim.now.theory claim.now.statement }
    requires works { IsSomeWork claim.now.theory claim.now.statement work.old }
    ensures paired { OnOk result ((p : Proof) → MayWork claim.now.theory claim.now.statement work.old p
        → Makes claim.now.theory claim.now.statement work.new p (carried_out (CriticalPairs first.now second.now) p)) }
    ensures refused { IfErr result (λ refusal. (p : Proof) → MayWork claim.now.theory claim.now.statement work.old p
        → Tells (carried_out (CriticalPairs first.now second.now) p) refusal) }
{
    let equations = pairs_of_facts(alloc, &mut work.draft, first, second)?;
    derive_facts(alloc, claim, work, equations)
}

// The equations of the critical pairs of two facts of the current level, each with a line that says it.
#[tactic(auto, using(larch_derive::proofs::Growth::extends_same))]
fn pairs_of_facts(
    alloc: Global,
    draft: &mut Draft,
    first: &FactName,
    second: &FactName,
) -> Result<Vec<SaidEquation>, CommandRefusal>
    requires said { AreSaid draft.old.builder draft.old.current.facts }
    requires parts { All IsPart (open_constants draft.old.builder) }
    requires apply { RewriteApplications (facts_of draft.old.current.facts) }
    ensures pairs { IfOk result (λ es. pairs_among first.now second.now (facts_of draft.old.current.facts)
        ≡ Ok (map sides_in es.items)) }
    ensures refused { IfErr result (Tells (pairs_among first.now second.now (facts_of draft.old.current.facts))) }
    ensures said { IfOk result (λ es. All (IsSaid draft.new.builder) es.items) }
    ensures extends { Extends draft.old.builder draft.new.builder }
    ensures rest { draft.new ≡ record draft.old { builder = draft.new.builder } }
{
    let Draft {
        builder,
        current,
        ..
    } = draft;
    let rule = rule_named(alloc, &current.facts, first)?;
    let other = rule_named(alloc, &current.facts, second)?;
    pairs_of_rules(alloc, builder, &rule, &other, are_one(first, second))
}

// Whether two names of facts are one.
#[tactic(auto, using(crate::proofs::Paired::name_told))]
fn are_one(first: &FactName, second: &FactName) -> bool
    ensures { result ≡ same_fact_name first.now second.now }
{
    *first == *second
}

// The fact of a name as a rule, with its line.
fn rule_named(alloc: Global, facts: &Facts, name: &FactName) -> Result<SaidRule, CommandRefusal>
    ensures named { IfOk result (λ r. sides_or (find (has_name name.now) (facts_of facts.now).rules)
        ≡ Ok (rule_in r)) }
    ensures refused { IfErr result (Tells (sides_or (find (has_name name.now) (facts_of facts.now).rules))) }
    ensures said { IfOk result (λ r. (b : is_builder) → AreSaid b facts.now → IsSaidRule b r) }
{
    let SaidEquation { left, right, line } = fact_named(alloc, facts, name)?;
    Ok(SaidRule {
        rule: Rule { left, right },
        line,
    })
}

// The equations of the critical pairs of two rules that lines say. They are refused with SIZE where forming them comes
// to a term that is too large.
#[tactic(auto, using(larch_derive::proofs::Growth::extends_same))]
fn pairs_of_rules(
    alloc: Global,
    builder: &mut Builder,
    first: &SaidRule,
    second: &SaidRule,
    one: bool,
) -> Result<Vec<SaidEquation>, CommandRefusal>
    requires first { IsSaidRule builder.old first.now }
    requires second { IsSaidRule builder.old second.now }
    requires parts { All IsPart (open_constants builder.old) }
    requires applies { IsApplication second.now.rule.left }
    ensures pairs { IfOk result (λ es. equations_of (critical_pairs first.now.rule second.now.rule one)
        ≡ Ok (map sides_in es.items)) }
    ensures refused { IfErr result (Tells (equations_of (critical_pairs first.now.rule second.now.rule one))) }
    ensures said { IfOk result (λ es. All (IsSaid builder.new) es.items) }
    ensures extends { Extends builder.old builder.new }
{
    match critical_pairs(alloc, &first.rule, &second.rule, one) {
        Ok(pairs) => Ok(say_pairs(alloc, builder, pairs.as_slice(), first, second)?),
        Err(PairRefusal::TooLarge) => Err(CommandRefusal::Wrong(Code::Size)),
        Err(PairRefusal::Memory) => Err(CommandRefusal::Memory),
    }
}

// The equations of critical pairs of two rules, each with a line that says it.
#[tactic(auto, using(larch_derive::proofs::Growth::extends_same))]
fn say_pairs(
    alloc: Global,
    builder: &mut Builder,
    pairs: &[Pair],
    first: &SaidRule,
    second: &SaidRule,
) -> Result<Vec<SaidEquation>, Memory>
    requires first { IsSaidRule builder.old first.now }
    requires second { IsSaidRule builder.old second.now }
    requires pairs { All (IsPairOf builder.old (rule_in first.now) (rule_in second.now)) pairs.now }
    ensures pairs { IfOk result (λ es. map sides_in es.items ≡ map as_equation pairs.now) }
    ensures said { IfOk result (λ es. All (IsSaid builder.new) es.items) }
    ensures extends { Extends builder.old builder.new }
{
    let mut equations = Vec::with_capacity(alloc, pairs.len())?;
    for pair in pairs {
        let SaidPair { left, right, line } = say_pair(
            alloc,
            builder,
            pair,
            first.line,
            second.line,
        )?;
        equations.push(SaidEquation { left, right, line })?;
    }
    Ok(equations)
}
