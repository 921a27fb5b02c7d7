ghost use Rattle.std.specs.Prelude.{◌≡◌, ◌++◌, ◌∷◌, [], ℕ, List, IfOk, OnOk, bytes_eq, cond, filter, map};
ghost use Rattle.std.specs.Cmp.Lexicographic.{pointwise};
ghost use Rattle.std.specs.List.{flat_map};
ghost use Rattle.larch_sorts_counts.specs.SortsMeaningSignature.{kept};
ghost use Rattle.larch_sorts_signature.specs.Domains.{IsByDomain, domains_of, has_domain, kept_for, with_sorts};

use crate::domain::Domain;
use crate::table::Table;
use indexmap::IndexMap;
use larch_base::{Memory, Sequence};
use larch_term::{Operator, Operators};
use std::alloc::Global;

/// Operators under their domains, so that those that take the sorts of all arguments are found without the others.
#[derive(Drop)]
pub struct Domains {
    kept: IndexMap<Domain, Operators>,
}

impl Domains {
    // Each of these operators under its domain.
    pub(crate) fn of(alloc: Global, operators: &[Operator]) -> Result<Domains, Memory>
        ensures { IfOk result (λ domains. IsByDomain domains.kept.entries operators.now) }
    {
        let mut kept = IndexMap::new(alloc);
        for operator in operators {
            keep(alloc, &mut kept, operator)?;
        }
        Ok(Domains { kept })
    }

    /// How many domains there are.
    pub fn len(&self) -> usize {
        self.kept.len()
    }

    // The operators with this domain.
    pub(crate) fn at(&self, domain: &Domain) -> &[Operator]
        ensures { result.now ≡ kept_for self.now.kept.entries domain.now }
    {
        match self.kept.get(domain) {
            Some(operators) => operators.as_slice(),
            None => &[],
        }
    }
}

// Puts an operator behind those of its domain.
fn keep(
    alloc: Global,
    kept: &mut IndexMap<Domain, Operators>,
    operator: &Operator,
) -> Result<(), Memory>
    ensures { OnOk result ((ss : List (List ℕ))
        → kept_for kept.new.entries ss ≡ kept_for kept.old.entries ss ++ filter (has_domain ss) (operator.now ∷ [])) }
{
    let domain = Domain::of(alloc, operator.domain())?;
    put(alloc, kept, domain, operator)?;
    Ok(())
}

// Puts an operator behind those of one domain.
#[tactic(auto, using(larch_term::specs::OperatorKey::sorts_Decides))]
fn put(
    alloc: Global,
    kept: &mut IndexMap<Domain, Operators>,
    domain: Domain,
    operator: &Operator,
) -> Result<(), Memory>
    ensures { OnOk result ((ss : List (List ℕ))
        → kept_for kept.new.entries ss
        ≡ kept_for kept.old.entries ss ++ cond (pointwise bytes_eq domain ss) (operator.now ∷ []) []) }
{
    let mut operators = or_room_for_one(alloc, kept.swap_remove(&domain))?;
    let copied = operator.copy()?;
    operators.push(copied)?;
    kept.insert(domain, operators)?;
    Ok(())
}

// What was kept, or nothing with room for one operator: most domains and places have one.
pub(crate) fn or_room_for_one(alloc: Global, found: Option<Operators>) -> Result<Operators, Memory>
    ensures { IfOk result (λ operators. operators ≡ kept found) }
{
    match found {
        Some(operators) => Ok(operators),
        None => {
            let items = Vec::with_capacity(alloc, 1)?;
            Ok(Sequence::from_vec(items))
        }
    }
}

// How many domains there are with a sort of each table.
pub(crate) fn count_of(tables: &[Table]) -> usize {
    let mut count = 1usize;
    for table in tables {
        count = count.saturating_mul(table.found.len());
    }
    count
}

// The domains with a sort of each table.
pub(crate) fn domains_of(alloc: Global, tables: &[Table]) -> Result<Sequence<Domain>, Memory>
    ensures { IfOk result (λ domains. domains ≡ domains_of (map (λ t. t.found.value.entries) tables.now)) }
{
    let mut domains = Sequence::new(alloc);
    domains.push(Domain::empty(alloc))?;
    for table in tables {
        domains = longer(alloc, domains.as_slice(), table)?;
    }
    Ok(domains)
}

// Domains, each with each sort of a table behind it.
fn longer(alloc: Global, domains: &[Domain], table: &Table) -> Result<Sequence<Domain>, Memory>
    ensures { IfOk result (λ more. more ≡ flat_map (with_sorts table.now.found.value.entries) domains.now) }
{
    let mut more = Sequence::new(alloc);
    for domain in domains {
        push_longer(alloc, domain, table, &mut more)?;
    }
    Ok(more)
}

// Puts a domain with each sort of a table behind others.
fn push_longer(
    alloc: Global,
    domain: &Domain,
    table: &Table,
    more: &mut Sequence<Domain>,
) -> Result<(), Memory>
    ensures { OnOk result (more.new ≡ more.old ++ with_sorts table.now.found.value.entries domain.now) }
{
    for sort in table.found.keys() {
        let longer = domain.with(alloc, sort)?;
        more.push(longer)?;
    }
    Ok(())
}
