ghost use Rattle.std.specs.Prelude.{◌≡◌, [], bytes_eq, IfOk, OnOk};
ghost use Rattle.std.specs.List.{fold, list_any};
ghost use Rattle.larch_sorts_known.specs.Sorts.{with_sort, existing_sorts};

use indexmap::IndexSet;
use larch_term::from_base::Memory;
use larch_term::{Operator, Sort, bool_sort};
use std::alloc::Global;
use std::marker::Model;

/// Sorts in the order in which they came, each once. Contracts see them as a list.
pub struct SortSet {
    sorts: IndexSet<Sort>,
}

// By a call, so that a proof takes a set apart in one place alone.
impl Drop for SortSet {
    fn drop(self) {
        let SortSet { sorts: _sorts } = self;
    }
}

impl Model for SortSet {
    ghost use Rattle.std.specs.Prelude.{List, ℕ};

    ghost Value = { List (List ℕ) };

    ghost view = { λ set. set.sorts.keys };
}

impl SortSet {
    /// No sorts. It takes no memory.
    pub fn new(alloc: Global) -> SortSet
        ensures { result ≡ [] }
    {
        SortSet {
            sorts: IndexSet::new(alloc),
        }
    }

    /// Puts a sort behind the others, unless it is there.
    pub fn insert(&mut self, sort: &Sort) -> Result<(), Memory>
        ensures { OnOk result (self.new ≡ with_sort self.old sort.now) }
    {
        let sort = sort.copy()?;
        self.sorts.insert(sort)?;
        Ok(())
    }

    /// Whether a sort is there. It takes no memory.
    pub fn contains(&self, sort: &Sort) -> bool
        ensures { result ≡ list_any (bytes_eq sort.now) self.now }
    {
        self.sorts.contains(sort)
    }

    /// The sorts. It takes no memory.
    pub fn as_slice(&self) -> &[Sort]
        ensures { result.now ≡ self.now }
    {
        self.sorts.as_slice()
    }
}

/// The sorts that exist beside operators: Bool, and those in their domains and ranges, in order.
pub fn existing_sorts(alloc: Global, operators: &[Operator]) -> Result<SortSet, Memory>
    ensures { IfOk result (λ sorts. sorts ≡ existing_sorts operators.now) }
{
    let mut sorts = SortSet::new(alloc);
    let truth = bool_sort(alloc)?;
    sorts.insert(&truth)?;
    for operator in operators {
        insert_all(&mut sorts, operator.domain())?;
        sorts.insert(operator.range())?;
    }
    Ok(sorts)
}

// Puts sorts behind the others, each once.
fn insert_all(sorts: &mut SortSet, more: &[Sort]) -> Result<(), Memory>
    ensures { OnOk result (sorts.new ≡ fold with_sort sorts.old more.now) }
{
    for sort in more {
        sorts.insert(sort)?;
    }
    Ok(())
}
