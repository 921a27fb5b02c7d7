ghost use Rattle.std.specs.Option.{option_copied};
ghost use Rattle.std.specs.Prelude.{◌≡◌, ◌++◌, ◌==◌, All, IfErr, IfOk, Ok, bytes_eq, filter, find, length};
ghost use Rattle.larch_prove_work.specs.ProveAddingEquation.{sides_in};
ghost use Rattle.larch_prove_work.specs.ProveAddingKeptFacts.{facts_of};
ghost use Rattle.larch_prove_facts.specs.Entries.{IsSomeSettings, entries_for, entry_for, names_in, variables_both};
ghost use Rattle.larch_prove_meaning.specs.Levels.{Proof};
ghost use Rattle.larch_prove_meaning.specs.Steps.{instantiation, stands_once};
ghost use Rattle.larch_prove_work.specs.ProveSettingsSettings.{AreSettingsOf};
ghost use Rattle.larch_prove_work.specs.ProveSettingsTelling.{Tells};
ghost use Rattle.larch_rewrite_meaning.specs.Sides.{Sides};
ghost use Rattle.larch_script_commands.specs.Worded.{WordedInstance, WordedLone};

use crate::named::fact_named;
use larch_base::{Code, FactName, Memory, Name, Sequence};
use larch_pairs::{Entries, substitution_of};
use larch_prove_work::from_prove_adding::{Facts, SaidEquation};
use larch_prove_work::from_prove_settings::{CommandRefusal, Settings};
use larch_script_commands::RawInstance;
use larch_term::{Entry, Substitution, Variable, Variables, variables};
use std::alloc::Global;

// What a command writes for the variables of the fact of a name. It is refused with FACT where none has the name, with
// VARIABLE where a variable isn't the fact's or is written twice, and as its terms are.
pub(crate) fn read_entries(
    alloc: Global,
    settings: &Settings,
    facts: &Facts,
    instances: &[RawInstance],
    fact: &FactName,
) -> Result<Substitution, CommandRefusal>
    requires settings { IsSomeSettings settings.now }
    requires worded { All WordedInstance instances.now }
    ensures read { IfOk result (λ es. (p : Proof) → AreSettingsOf settings.now p
        → entries_for fact.now instances.now (facts_of facts.now) p ≡ Ok es) }
    ensures refused { IfErr result (λ refusal. (p : Proof) → AreSettingsOf settings.now p
        → Tells (entries_for fact.now instances.now (facts_of facts.now) p) refusal) }
{
    let equation = fact_named(alloc, facts, fact)?;
    let variables = variables_of(alloc, &equation)?;
    let entries = entries_of(alloc, settings, variables.as_slice(), instances)?;
    Ok(substitution_of(alloc, entries)?)
}

// The variables of an equation, those of the left side first.
fn variables_of(alloc: Global, equation: &SaidEquation) -> Result<Variables, Memory>
    ensures { IfOk result (λ vs. vs ≡ variables_both (sides_in equation.now)) }
{
    let mut found = variables(alloc, &equation.left)?;
    let right = variables(alloc, &equation.right)?;
    for variable in right.into_vec() {
        found.push(variable)?;
    }
    Ok(found)
}

// What a command writes for these variables of an equation.
fn entries_of(
    alloc: Global,
    settings: &Settings,
    variables: &[Variable],
    instances: &[RawInstance],
) -> Result<Entries, CommandRefusal>
    requires worded { All WordedInstance instances.now }
    ensures read { IfOk result (λ es. (p : Proof) (e : Sides) → AreSettingsOf settings.now p
        → variables.now ≡ variables_both e → instantiation p e (names_in instances.now) instances.now ≡ Ok es) }
    ensures refused { IfErr result (λ refusal. (p : Proof) (e : Sides) → AreSettingsOf settings.now p
        → variables.now ≡ variables_both e
        → Tells (instantiation p e (names_in instances.now) instances.now) refusal) }
{
    let mut entries = Sequence::new(alloc);
    for instance in instances {
        let entry = read_entry(alloc, settings, variables, instances, instance)?;
        entries.push(entry)?;
    }
    Ok(entries)
}

// What one of the instances of a command writes for one of these variables.
fn read_entry(
    alloc: Global,
    settings: &Settings,
    variables: &[Variable],
    instances: &[RawInstance],
    instance: &RawInstance,
) -> Result<Entry, CommandRefusal>
    requires worded { WordedLone instance.now.term }
    ensures read { IfOk result (λ entry. (p : Proof) (e : Sides) → AreSettingsOf settings.now p
        → variables.now ≡ variables_both e → entry_for p e (names_in instances.now) instance.now ≡ Ok entry) }
    ensures refused { IfErr result (λ refusal. (p : Proof) (e : Sides) → AreSettingsOf settings.now p
        → variables.now ≡ variables_both e → Tells (entry_for p e (names_in instances.now) instance.now) refusal) }
{
    let Some(variable) = variable_named(variables, &instance.name.name) else {
        return Err(CommandRefusal::Wrong(Code::Variable));
    };
    if count_named(instances, &instance.name.name) != 1 {
        return Err(CommandRefusal::Wrong(Code::Variable));
    }
    let term = settings.read_lone(alloc, &variable.sort, &instance.term)?;
    let name = variable.name.copy()?;
    let sort = variable.sort.copy()?;
    Ok(Entry { name, sort, term })
}

// The first variable of a name.
fn variable_named<'a>(variables: &'a [Variable], name: &Name) -> Option<&'a Variable>
    ensures { option_copied result ≡ find (λ v. bytes_eq v.name name.now) variables.now }
{
    for variable in variables {
        if variable.name == *name {
            return Some(variable);
        }
    }
    None
}

// How many instances are of a name.
fn count_named(instances: &[RawInstance], name: &Name) -> usize
    ensures { result ≡ length (filter (bytes_eq name.now) (names_in instances.now)) }
{
    let mut count = 0;
    for instance in instances {
        if *name == instance.name.name {
            count += 1;
        }
    }
    count
}
