ghost use Rattle.std.specs.Prelude.{◌≡◌, [], is_some, map, not, IfOk, OnErr, OnOk};
ghost use Rattle.larch_prove_meaning.specs.Steps.{with_all_new, with_new};
ghost use Rattle.larch_prove_settings.specs.Scope.{AreInOrder, pair_of};
ghost use Rattle.larch_sorts_meaning.specs.Scope.{sort_in};

use larch_base::{Memory, Name};
use larch_raw::RawWord;
use larch_sorts_meaning::Scope;
use larch_term::{Sort, Variable};
use std::alloc::Global;
use std::marker::Model;

/// The variables in scope, which readers look up by their names, one by one. Contracts see them as pairs of a name and
/// a sort, in the order in which they came; no name is there twice.
#[derive(Drop)]
pub struct OrderedScope {
    variables: Vec<Variable>,
    scope: Scope,
}

impl Model for OrderedScope {
    ghost use Rattle.larch_prove_settings.specs.Scope.{AreInOrder};
    ghost use Rattle.larch_sorts_meaning.specs.Scope.{Variables};

    ghost Value = { Variables };

    ghost view = { λ ordered. ordered.scope };

    ghost invariant = { λ ordered. AreInOrder ordered.variables.items ordered.scope };
}

impl OrderedScope {
    /// No variables.
    pub fn new(alloc: Global) -> OrderedScope
        ensures { result ≡ [] }
    {
        OrderedScope {
            variables: Vec::new(alloc),
            scope: Scope::new(alloc),
        }
    }

    /// The same variables once more.
    #[tactic(auto, using(crate::proofs::InTurn::put_again))]
    pub fn copy(&self, alloc: Global) -> Result<OrderedScope, Memory>
        ensures { IfOk result (λ ordered. ordered ≡ self.now) }
    {
        let mut ordered = OrderedScope::new(alloc);
        ordered.insert_all(self.variables.as_slice())?;
        Ok(ordered)
    }

    /// The variables, in order.
    pub fn variables(&self) -> &[Variable]
        ensures { map pair_of result.now ≡ self.now }
    {
        self.variables.as_slice()
    }

    /// The variables by their names.
    pub fn scope(&self) -> &Scope
        ensures { result.now ≡ self.now }
    {
        &self.scope
    }

    /// Puts a variable behind the others and answers true; answers false, and nothing changes, where its name is there.
    /// Nothing changes where memory runs out.
    #[tactic(auto, using(crate::proofs::InTurn::one_more))]
    pub fn insert(&mut self, variable: &Variable) -> Result<bool, Memory>
        ensures told { IfOk result (λ added. added ≡ not (is_some (sort_in self.old variable.now.name))) }
        ensures added { OnOk result (self.new ≡ with_new self.old (pair_of variable.now)) }
        ensures err { OnErr result (self.new ≡ self.old) }
    {
        if self.scope.get(&variable.name).is_some() {
            return Ok(false);
        }
        let further = copy_variable(&variable.name, &variable.sort)?;
        let name = variable.name.copy()?;
        let sort = variable.sort.copy()?;
        self.variables.push(further)?;
        if let Err(memory) = self.scope.insert(name, sort) {
            self.variables.pop();
            return Err(memory);
        }
        Ok(true)
    }

    /// Puts variables behind the others in turn, each unless its name is there.
    pub fn insert_all(&mut self, variables: &[Variable]) -> Result<(), Memory>
        ensures { OnOk result (self.new ≡ with_all_new self.old (map pair_of variables.now)) }
    {
        for variable in variables {
            self.insert(variable)?;
        }
        Ok(())
    }

    /// Puts variables of one sort behind the others in turn, each unless its name is there.
    pub fn insert_names(&mut self, names: &[RawWord], sort: &Sort) -> Result<(), Memory>
        ensures { OnOk result (self.new ≡ with_all_new self.old (map (λ w. (w.name, sort.now)) names.now)) }
    {
        for word in names {
            let variable = copy_variable(&word.name, sort)?;
            self.insert(&variable)?;
        }
        Ok(())
    }
}

// A variable, from copies of its name and sort.
fn copy_variable(name: &Name, sort: &Sort) -> Result<Variable, Memory>
    ensures { IfOk result (λ variable. pair_of variable ≡ (name.now, sort.now)) }
{
    let name = name.copy()?;
    let sort = sort.copy()?;
    Ok(Variable { name, sort })
}
