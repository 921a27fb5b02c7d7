ghost use Rattle.std.specs.Prelude.{◌≡◌, IfOk};
ghost use Rattle.larch_derive.specs.OpenBox.{place_from};
ghost use Rattle.larch_derive.specs.Index.{IsIndex};

use indexmap::IndexMap;
use larch_term::from_base::{Memory, let_go};
use larch_term::{Operator, Theory, copy_theory};
use std::alloc::Global;
use std::marker::Model;
use std::rc::Rc;

/// A theory that its copies share, with an index of its operators. Contracts see it as the theory.
#[derive(Drop)]
pub(crate) struct SharedTheory {
    theory: Rc<Theory>,
    places: Rc<IndexMap<Operator, u64>>,
}

impl Model for SharedTheory {
    ghost use Rattle.larch_term.specs.declared.statement.Theory.{Theory};
    ghost use Rattle.larch_derive.specs.Index.{IsIndex};
    ghost use Rattle.larch_derive.specs.TheoryCode.{coded_theory};

    ghost Value = { Theory };

    ghost coded = { coded_theory };

    ghost view = { λ shared. shared.theory.value };

    ghost invariant = { λ shared. IsIndex shared.places.value.entries shared.theory.value.operators };
}

impl SharedTheory {
    // A copy of the theory, to be shared.
    pub(crate) fn new(alloc: Global, theory: &Theory) -> Result<SharedTheory, Memory>
        ensures { IfOk result (λ shared. shared ≡ theory.now) }
    {
        let places = shared_places(alloc, theory.operators.as_slice())?;
        match shared_copy(alloc, theory) {
            Ok(theory) => Ok(SharedTheory { theory, places }),
            Err(memory) => Err(let_go(memory, places)),
        }
    }

    // The same theory once more. It takes no memory of its own, but there may be too many copies.
    pub(crate) fn copy(&self) -> Result<SharedTheory, Memory>
        ensures { IfOk result (λ shared. shared ≡ self.now) }
    {
        let theory = self.theory.clone()?;
        match self.places.clone() {
            Ok(places) => Ok(SharedTheory { theory, places }),
            Err(refused) => Err(let_go(Memory::from(refused), theory)),
        }
    }

    // The place of an operator among the theory's own, counted from 1. It takes no memory.
    pub(crate) fn place_of(&self, operator: &Operator) -> Option<u64>
        ensures { result ≡ place_from 1 self.now.operators operator.now }
    {
        self.places.as_ref().get(operator).copied()
    }
}

// A copy of the theory, to be shared.
fn shared_copy(alloc: Global, theory: &Theory) -> Result<Rc<Theory>, Memory>
    ensures { IfOk result (λ shared. shared.value ≡ theory.now) }
{
    let theory = copy_theory(alloc, theory)?;
    let theory = Rc::new(alloc, theory)?;
    Ok(theory)
}

// The index of these operators, to be shared.
fn shared_places(
    alloc: Global,
    operators: &[Operator],
) -> Result<Rc<IndexMap<Operator, u64>>, Memory>
    ensures { IfOk result (λ places. IsIndex places.value.entries operators.now) }
{
    let places = places_in(alloc, operators)?;
    let places = Rc::new(alloc, places)?;
    Ok(places)
}

// The place of each operator, from the last to the first: where an operator stands twice, the lower place counts.
fn places_in(alloc: Global, operators: &[Operator]) -> Result<IndexMap<Operator, u64>, Memory>
    ensures { IfOk result (λ places. IsIndex places.entries operators.now) }
{
    let mut places = IndexMap::new(alloc);
    let mut place = operators.len();
    while place > 0 {
        let operator = operators[place - 1].copy()?;
        places.insert(operator, place as u64)?;
        place -= 1;
    }
    Ok(places)
}
