ghost use Rattle.std.specs.Prelude.{◌≡◌, ◌≢◌, ◌++◌, codes, false, fold, AllPairs, IfOk, OnOk};
ghost use Rattle.std.specs.Fmt.{decimal};
ghost use Rattle.std.specs.List.{flat_map};
ghost use Rattle.larch_term.specs.Substitution.{is_entry_of};
ghost use Rattle.larch_term.specs.Tree.{var};
ghost use Rattle.larch_term.specs.Variable.{occurrences, with_variable};
ghost use Rattle.larch_pairs_critical.specs.Pairs.{name_variables, number_variables, pair_under, pair_variables};
ghost use Rattle.larch_pairs.specs.Unify.{entries_under};

use crate::inner::copy_place;
use crate::pair::Pair;
use larch_base::{Memory, Name, Sequence};
use larch_pairs::{Entries, substitution_of, variables_of_both};
use larch_term::{Entry, Substitution, Term, Variable, Variables, add_variables, substitute};
use std::alloc::Global;

// The pair with its variables named v1, v2, ..
pub(crate) fn named(alloc: Global, pair: Pair) -> Result<Pair, Memory>
    requires first { AllPairs (λ d e. is_entry_of e.name e.sort d ≡ false) pair.first }
    requires second { AllPairs (λ d e. is_entry_of e.name e.sort d ≡ false) pair.second }
    ensures { IfOk result (λ q. q ≡ name_variables pair) }
{
    let names = names_for(alloc, &pair)?;
    let named = pair_under(alloc, &pair, &names)?;
    Ok(named)
}

// The pair with other variables.
fn pair_under(alloc: Global, pair: &Pair, by: &Substitution) -> Result<Pair, Memory>
    requires first { AllPairs (λ d e. is_entry_of e.name e.sort d ≡ false) pair.now.first }
    requires second { AllPairs (λ d e. is_entry_of e.name e.sort d ≡ false) pair.now.second }
    ensures { IfOk result (λ q. q ≡ pair_under by.now pair.now) }
{
    let left = substitute(alloc, &pair.left, by)?;
    let right = substitute(alloc, &pair.right, by)?;
    let first = entries_under(alloc, &pair.first, by)?;
    let second = entries_under(alloc, &pair.second, by)?;
    let place = copy_place(alloc, pair.place.as_slice())?;
    Ok(Pair {
        left,
        right,
        place,
        first,
        second,
    })
}

// The names for a pair's variables.
#[tactic(auto, using(crate::proofs::Different::pair_variables_different))]
fn names_for(alloc: Global, pair: &Pair) -> Result<Substitution, Memory>
    ensures { IfOk result (λ es. es ≡ number_variables 1 (pair_variables pair.now)) }
{
    let variables = pair_variables(alloc, pair)?;
    let names = numbered(alloc, variables.as_slice())?;
    Ok(names)
}

// The variables of a pair, in the order in which each occurs first.
#[tactic(auto, using(crate::proofs::Different::pair_variables_are))]
fn pair_variables(alloc: Global, pair: &Pair) -> Result<Variables, Memory>
    ensures { IfOk result (λ vs. vs ≡ pair_variables pair.now) }
{
    let mut found = variables_of_both(alloc, &pair.left, &pair.right)?;
    add_term_variables(pair.first.as_slice(), &mut found)?;
    add_term_variables(pair.second.as_slice(), &mut found)?;
    Ok(found)
}

// Puts the variables of the terms of entries behind others, each one that isn't there.
fn add_term_variables(entries: &[Entry], found: &mut Variables) -> Result<(), Memory>
    ensures { OnOk result (found.new ≡ fold with_variable found.old (flat_map (λ e. occurrences e.term) entries.now)) }
{
    for entry in entries {
        add_variables(&entry.term, found)?;
    }
    Ok(())
}

// The names v1, v2, .. for different variables.
fn numbered(alloc: Global, variables: &[Variable]) -> Result<Substitution, Memory>
    requires { AllPairs (λ v w. v ≢ w) variables.now }
    ensures { IfOk result (λ es. es ≡ number_variables 1 variables.now) }
{
    let entries = number_entries(alloc, variables)?;
    let numbered = substitution_of(alloc, entries)?;
    Ok(numbered)
}

fn number_entries(alloc: Global, variables: &[Variable]) -> Result<Entries, Memory>
    ensures { IfOk result (λ es. es ≡ number_variables 1 variables.now) }
{
    let mut entries = Sequence::new(alloc);
    for i in 0..variables.len() {
        let variable = &variables[i];
        let name = variable.name.copy()?;
        let sort = variable.sort.copy()?;
        let term = numbered_variable(alloc, i + 1, variable)?;
        entries.push(Entry { name, sort, term })?;
    }
    Ok(entries)
}

// The variable v with a number, of the sort of another variable.
fn numbered_variable(alloc: Global, number: usize, variable: &Variable) -> Result<Term, Memory>
    ensures { IfOk result (λ t. t ≡ var (codes "v" ++ decimal number) variable.now.sort) }
{
    let text = format!(in alloc; "v{number}")?;
    let name = Name::new(alloc, text.as_bytes())?;
    let sort = variable.sort.copy()?;
    Ok(Term::var(name, sort))
}

// The entries with their terms under a substitution.
pub(crate) fn entries_under(
    alloc: Global,
    entries: &Substitution,
    by: &Substitution,
) -> Result<Substitution, Memory>
    requires { AllPairs (λ d e. is_entry_of e.name e.sort d ≡ false) entries.now }
    ensures entries { IfOk result (λ es. es ≡ entries_under by.now entries.now) }
    ensures different { IfOk result (λ es. AllPairs (λ d e. is_entry_of e.name e.sort d ≡ false) es) }
{
    let list = list_under(alloc, entries, by)?;
    let under = substitution_of(alloc, list)?;
    Ok(under)
}

fn list_under(alloc: Global, entries: &Substitution, by: &Substitution) -> Result<Entries, Memory>
    ensures { IfOk result (λ es. es ≡ entries_under by.now entries.now) }
{
    let mut under = Sequence::new(alloc);
    for entry in entries.as_slice() {
        let name = entry.name.copy()?;
        let sort = entry.sort.copy()?;
        let term = substitute(alloc, &entry.term, by)?;
        under.push(Entry { name, sort, term })?;
    }
    Ok(under)
}
