ghost use Rattle.std.specs.Prelude.{◌≡◌, ◌++◌, ◌∷◌, [], true, false, None, is_some, not, IfOk, OnErr};
ghost use Rattle.std.specs.Option.{option_copied};
ghost use Rattle.larch_sorts_meaning.specs.Scope.{sort_in, with_variable};
ghost use Rattle.larch_raw.specs.RawTree.{raw_forest};
ghost use Rattle.larch_sorts_meaning.specs.Readings.{variable_sort};

use indexmap::IndexMap;
use larch_base::{Memory, Name};
use larch_raw::RawTerms;
use larch_term::Sort;
use std::alloc::Global;
use std::marker::Model;

/// The variables that may stand in a term. Contracts see them as pairs of a name and a sort, in the order in which
/// they came; no name is there twice.
#[derive(Drop)]
pub struct Scope {
    sorts: IndexMap<Name, Sort>,
}

impl Model for Scope {
    ghost use Rattle.larch_sorts_meaning.specs.Scope.{Variables};

    ghost Value = { Variables };

    ghost view = { λ scope. scope.sorts.entries };
}

impl Scope {
    /// No variables. It takes no memory.
    pub fn new(alloc: Global) -> Scope
        ensures { result ≡ [] }
    {
        Scope {
            sorts: IndexMap::new(alloc),
        }
    }

    /// The sort of the variable of this name. It takes no memory.
    pub fn get(&self, name: &Name) -> Option<&Sort>
        ensures { option_copied result ≡ sort_in self.now name.now }
    {
        self.sorts.get(name)
    }

    /// Puts a variable behind the others and answers true; answers false, and nothing changes, where its name is there.
    /// Nothing changes where memory runs out.
    pub fn insert(&mut self, name: Name, sort: Sort) -> Result<bool, Memory>
        ensures told { IfOk result (λ added. added ≡ not (is_some (sort_in self.old name))) }
        ensures added { IfOk result (λ added. self.new ≡ with_variable added self.old name sort) }
        ensures err { OnErr result (self.new ≡ self.old) }
    {
        if self.get(&name).is_some() {
            return Ok(false);
        }
        self.sorts.insert(name, sort)?;
        Ok(true)
    }
}

/// The sort of the variable that a name with these arguments means: one with arguments means none. It takes no memory.
pub fn variable_sort<'a>(scope: &'a Scope, name: &Name, arguments: &RawTerms) -> Option<&'a Sort>
    ensures { option_copied result ≡ variable_sort scope.now name.now (raw_forest arguments.now) }
{
    if !arguments.as_slice().is_empty() {
        return None;
    }
    scope.get(name)
}
