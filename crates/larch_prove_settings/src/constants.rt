ghost use Rattle.std.specs.Prelude.{◌≡◌, ◌++◌, fold, IfOk, OnErr, OnOk};
ghost use Rattle.larch_order.specs.Precedence.{with_constant};

use crate::settings::Settings;
use larch_base::Memory;
use larch_order::Precedence;
use larch_sorts::from_sorts_signature::Signature;
use larch_term::{Operator, Operators, copy_operators};
use std::alloc::Global;
use std::rc::Rc;

impl Settings {
    /// Further constants of the block: commands can name them, and the precedence puts each of them below those before.
    pub fn make_constants(&mut self, alloc: Global, made: &[Operator]) -> Result<(), Memory>
        ensures operators { OnOk result (self.new.signature.value ≡ self.old.signature.value ++ made.now) }
        ensures constants { OnOk result (self.new.constants.value ≡ self.old.constants.value ++ made.now) }
        ensures ranks { OnOk result
            (self.new.precedence.value ≡ fold with_constant self.old.precedence.value made.now) }
        ensures sorts { self.new.sorts ≡ self.old.sorts }
        ensures scope { self.new.scope ≡ self.old.scope }
        ensures limit { self.new.limit ≡ self.old.limit }
        ensures err { OnErr result (self.new ≡ self.old) }
    {
        let precedence = with_constants(&self.precedence, made)?;
        let precedence = Rc::new(alloc, precedence)?;
        self.name_constants(alloc, made)?;
        self.precedence = precedence;
        Ok(())
    }

    /// Further constants of the block that are in the precedence already: commands can name them.
    pub fn name_constants(&mut self, alloc: Global, made: &[Operator]) -> Result<(), Memory>
        ensures operators { OnOk result (self.new.signature.value ≡ self.old.signature.value ++ made.now) }
        ensures constants { OnOk result (self.new.constants.value ≡ self.old.constants.value ++ made.now) }
        ensures rest { self.new
            ≡ record self.old { signature = self.new.signature; constants = self.new.constants } }
        ensures err { OnErr result (self.new ≡ self.old) }
    {
        let operators = join(alloc, self.signature.operators(), made)?;
        let signature = Signature::from_operators(alloc, operators)?;
        let constants = join(alloc, self.constants.as_slice(), made)?;
        let signature = Rc::new(alloc, signature)?;
        let constants = Rc::new(alloc, constants)?;
        self.signature = signature;
        self.constants = constants;
        Ok(())
    }
}

// The operators and others behind them.
fn join(alloc: Global, operators: &[Operator], further: &[Operator]) -> Result<Operators, Memory>
    ensures { IfOk result (λ all. all ≡ operators.now ++ further.now) }
{
    let mut all = copy_operators(alloc, operators)?;
    for operator in further {
        let copied = operator.copy()?;
        all.push(copied)?;
    }
    Ok(all)
}

// The precedence with constants in turn.
fn with_constants(precedence: &Precedence, made: &[Operator]) -> Result<Precedence, Memory>
    ensures { IfOk result (λ new. new ≡ fold with_constant precedence.now made.now) }
{
    let mut new = precedence.copy()?;
    for constant in made {
        new.add_constant(constant)?;
    }
    Ok(new)
}
