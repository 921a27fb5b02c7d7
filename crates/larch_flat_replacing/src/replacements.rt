ghost use Rattle.std.specs.Prelude.{◌≡◌, ◌↔◌, ◌++◌, ◌∷◌, [], map, is_some, bytes_eq, IsTrue, None, IfOk, OnOk};
ghost use Rattle.std.specs.Map.{lookup};
ghost use Rattle.larch_term.specs.Equality.{same_operator};
ghost use Rattle.larch_term.specs.Operator.{PlainOperator, plain};
ghost use Rattle.larch_flat_meaning.specs.Replacements.{none_replaced, new_sort, new_name, new_operator};
ghost use Rattle.larch_flat_replacing.specs.Kept.{these};

use indexmap::IndexMap;
use larch_base::{Memory, Name, Sequence};
use larch_term::{Operator, Sort, Sorts};
use std::alloc::Global;
use std::marker::Model;

/// What a reference puts in place of the names of its trait: other sorts, and other names for operators, all at once.
/// Contracts see both lists, in the order of replacement.
pub struct Replacements {
    sorts: IndexMap<Sort, Sort>,
    operators: Sequence<(Operator, Name)>,
    names: IndexMap<Operator, Name>,
}

// By a call, so that a proof takes replacements apart in one place alone.
impl Drop for Replacements {
    fn drop(self) {
        let Replacements {
            sorts: _sorts,
            operators: _operators,
            names: _names,
        } = self;
    }
}

impl Model for Replacements {
    ghost use Rattle.larch_flat_meaning.specs.Replacements.{Replacements as Lists};
    ghost use Rattle.larch_flat_replacing.specs.Kept.{FindsAs, coded_replacements, these};

    ghost Value = { Lists };

    ghost coded = { coded_replacements };

    ghost view = { λ by. these by.sorts.entries by.operators };

    ghost invariant = { λ by. FindsAs by.names.entries by.operators };
}

impl Replacements {
    /// Nothing is replaced. It takes no memory.
    pub fn none(alloc: Global) -> Replacements
        ensures { result ≡ none_replaced }
    {
        Replacements {
            sorts: IndexMap::new(alloc),
            operators: Sequence::new(alloc),
            names: IndexMap::new(alloc),
        }
    }

    /// Whether nothing is replaced. It takes no memory.
    pub fn is_none(&self) -> bool
        ensures { IsTrue result ↔ (self.now ≡ none_replaced) }
    {
        self.sorts.is_empty() && self.operators.as_slice().is_empty()
    }

    /// The sort in place of a sort, found at once.
    pub fn sort(&self, sort: &Sort) -> Result<Sort, Memory>
        ensures { IfOk result (λ new. new ≡ new_sort self.now sort.now) }
    {
        match self.sorts.get(sort) {
            Some(new) => {
                let new = new.copy()?;
                Ok(new)
            }
            None => {
                let same = sort.copy()?;
                Ok(same)
            }
        }
    }

    /// The operator in place of an operator, found at once. It is made afresh, unless nothing is replaced at all.
    pub fn operator(&self, alloc: Global, operator: &Operator) -> Result<Operator, Memory>
        ensures { IfOk result (λ new. new ≡ new_operator self.now operator.now) }
    {
        if self.is_none() {
            let same = operator.copy()?;
            return Ok(same);
        }
        let new = self.renamed(alloc, operator)?;
        Ok(new)
    }

    // The operator in place of an operator, made afresh.
    fn renamed(&self, alloc: Global, operator: &Operator) -> Result<Operator, Memory>
        ensures { IfOk result (λ new. new ≡ new_operator self.now operator.now) }
    {
        let name = self.name(operator)?;
        let domain = self.domain(alloc, operator.domain())?;
        let range = self.sort(operator.range())?;
        let new = Operator::new(alloc, name, domain, range)?;
        Ok(new)
    }

    // The name in place of an operator's own.
    fn name(&self, operator: &Operator) -> Result<Name, Memory>
        ensures { IfOk result (λ name. plain name ≡ new_name self.now operator.now) }
    {
        match self.names.get(operator) {
            Some(new) => {
                let new = new.copy()?;
                Ok(new)
            }
            None => {
                let same = operator.name().copy()?;
                Ok(same)
            }
        }
    }

    // The sorts in place of sorts.
    fn domain(&self, alloc: Global, sorts: &[Sort]) -> Result<Sorts, Memory>
        ensures { IfOk result (λ new. new ≡ map (new_sort self.now) sorts.now) }
    {
        let mut new = Sequence::new(alloc);
        for sort in sorts {
            let other = self.sort(sort)?;
            new.push(other)?;
        }
        Ok(new)
    }

    // Whether a sort is replaced.
    pub(crate) fn has_sort(&self, sort: &Sort) -> bool
        ensures { result ≡ is_some (lookup (bytes_eq sort.now) self.now.sorts) }
    {
        self.sorts.contains_key(sort)
    }

    // Whether an operator has another name.
    pub(crate) fn has_operator(&self, operator: &Operator) -> bool
        ensures { result ≡ is_some (lookup (same_operator operator.now) self.now.operators) }
    {
        self.names.contains_key(operator)
    }

    // With another sort in place of one that isn't replaced yet.
    pub(crate) fn with_sort(self, old: &Sort, new: &Name) -> Result<Replacements, Memory>
        requires { lookup (bytes_eq old.now) self.sorts ≡ None }
        ensures { IfOk result (λ by. by ≡ these (self.sorts ++ (old.now, new.now) ∷ []) self.operators) }
    {
        let old = old.copy()?;
        let new = new.copy()?;
        let Replacements {
            sorts,
            operators,
            names,
        } = self;
        let mut sorts = sorts;
        sorts.insert(old, new)?;
        Ok(Replacements {
            sorts,
            operators,
            names,
        })
    }

    // With one name for these operators.
    pub(crate) fn with_operators(
        self,
        operators: &[Operator],
        name: &Name,
    ) -> Result<Replacements, Memory>
        ensures { IfOk result (λ by. by ≡ these self.sorts (self.operators ++ map (λ f. (f, name.now)) operators.now)) }
    {
        let mut by = self;
        for operator in operators {
            by = by.with_operator(operator, name)?;
        }
        Ok(by)
    }

    /// With a name for an operator; one that it has already comes first.
    pub fn with_operator(self, operator: &Operator, name: &Name) -> Result<Replacements, Memory>
        ensures { IfOk result (λ by. by ≡ these self.sorts (self.operators ++ (operator.now, name.now) ∷ [])) }
    {
        let copied = operator.copy()?;
        let word = name.copy()?;
        let Replacements {
            sorts,
            operators,
            names,
        } = self;
        let mut operators = operators;
        operators.push((copied, word))?;
        let mut names = names;
        keep_name(&mut names, operator, name)?;
        Ok(Replacements {
            sorts,
            operators,
            names,
        })
    }
}

// Keeps a name for an operator, unless there is one.
fn keep_name(
    names: &mut IndexMap<Operator, Name>,
    operator: &Operator,
    name: &Name,
) -> Result<(), Memory>
    ensures { OnOk result ((f : PlainOperator) → lookup (same_operator f) names.new.entries
        ≡ lookup (same_operator f) (names.old.entries ++ (operator.now, name.now) ∷ [])) }
{
    if names.contains_key(operator) {
        return Ok(());
    }
    let operator = operator.copy()?;
    let name = name.copy()?;
    names.insert(operator, name)?;
    Ok(())
}
