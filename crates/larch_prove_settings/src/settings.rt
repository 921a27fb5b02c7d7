ghost use Rattle.std.specs.Prelude.{◌≡◌, [], IfOk};
ghost use Rattle.larch_order.specs.Precedence.{precedence_of};
ghost use Rattle.larch_prove_settings.specs.Settings.{IsSameSettings};
ghost use Rattle.larch_sorts_known.specs.Sorts.{existing_sorts};

use crate::scope::OrderedScope;
use larch_base::{Memory, Sequence};
use larch_order::Precedence;
use larch_sorts::from_sorts_signature::Signature;
use larch_sorts_known::{SortSet, existing_sorts};
use larch_term::{Operators, Theory, copy_operators};
use std::alloc::Global;
use std::rc::Rc;

/// What the commands of a block can name, and what they set. Copies share what is there.
#[derive(Drop)]
pub struct Settings {
    /// The theory's operators, and behind them the constants of the block.
    pub signature: Rc<Signature>,
    /// The sorts of the theory's operators.
    pub sorts: Rc<SortSet>,
    /// The constants of the block.
    pub constants: Rc<Operators>,
    /// The variables in scope.
    pub scope: Rc<OrderedScope>,
    pub precedence: Rc<Precedence>,
    /// The rewriting limit.
    pub limit: u32,
}

impl Settings {
    /// The settings with which a preamble begins: no constants, no variables, and the theory's precedence.
    pub fn new(alloc: Global, theory: &Theory, limit: u32) -> Result<Settings, Memory>
        ensures signature { IfOk result (λ settings. settings.signature.value ≡ theory.now.operators) }
        ensures sorts { IfOk result (λ settings. settings.sorts.value ≡ existing_sorts theory.now.operators) }
        ensures constants { IfOk result (λ settings. settings.constants.value ≡ []) }
        ensures scope { IfOk result (λ settings. settings.scope.value ≡ []) }
        ensures ranks { IfOk result (λ settings. settings.precedence.value ≡ precedence_of theory.now.operators) }
        ensures limit { IfOk result (λ settings. settings.limit ≡ limit) }
    {
        let operators = copy_operators(alloc, theory.operators.as_slice())?;
        let signature = Rc::new(alloc, Signature::from_operators(alloc, operators)?)?;
        let sorts = Rc::new(alloc, existing_sorts(alloc, theory.operators.as_slice())?)?;
        let constants = Rc::new(alloc, Sequence::new(alloc))?;
        let scope = Rc::new(alloc, OrderedScope::new(alloc))?;
        let precedence = Rc::new(alloc, Precedence::of_theory(alloc, theory)?)?;
        Ok(Settings {
            signature,
            sorts,
            constants,
            scope,
            precedence,
            limit,
        })
    }

    /// The same settings once more.
    pub fn copy(&self) -> Result<Settings, Memory>
        ensures { IfOk result (IsSameSettings self.now) }
    {
        let signature = self.signature.clone()?;
        let sorts = self.sorts.clone()?;
        let constants = self.constants.clone()?;
        let scope = self.scope.clone()?;
        let precedence = self.precedence.clone()?;
        Ok(Settings {
            signature,
            sorts,
            constants,
            scope,
            precedence,
            limit: self.limit,
        })
    }
}
