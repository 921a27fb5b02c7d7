ghost use Rattle.std.specs.Prelude.{◌≡◌, IfOk, Ok};
ghost use Rattle.larch_base.specs.Answering.{Answers};
ghost use Rattle.larch_flat_statements.specs.TraitsItemsItems.{items_state};
ghost use Rattle.larch_flat_statements.specs.TraitsItemsRefusal.{cause};
ghost use Rattle.larch_base_meaning.specs.Steps.{after, all_taken};
ghost use Rattle.larch_flat_statements.specs.FlatMeaningFlat.{finish_trait, take_items, take_own};
ghost use Rattle.larch_flat_statements.specs.FlatMeaningFlat.{take_rest, take_shorthand, within};
ghost use Rattle.larch_flat_statements.specs.FlatMeaningGathered.{Gathered};
ghost use Rattle.larch_flat_statements.specs.FlatMeaningLaws.{gathered_in};
ghost use Rattle.larch_flat_gathering.specs.Keeping.{Keeps, Leaves};
ghost use Rattle.larch_flat_gathering.specs.Storing.{discharge_stated};

use crate::expanding::{operators_of, statements_of};
use crate::flat::Flat;
use crate::store::Gathering;
use indexmap::IndexSet;
use larch_base::{Code, Memory, Sequence};
use larch_flat_statements::from_sorts_signature::Signature;
use larch_flat_statements::from_traits_items::{TraitRefusal, declare, state_items};
use larch_flat_statements::new_among;
use larch_raw::{RawItem, RawShorthand, RawTrait};
use larch_term::{Operator, Operators, Statements, copy_operators};
use std::alloc::Global;

impl Gathering {
    /// Takes what a shorthand stands for. `Wrong` has FIELD-TWICE or BUILT-IN, as `larch_shorthand` tells it. Its
    /// statements aren't built where its operators alone pass a limit.
    pub fn take_shorthand(
        &mut self,
        alloc: Global,
        shorthand: &RawShorthand,
    ) -> Result<(), TraitRefusal>
        ensures { (g : Gathered) → Keeps self.old g → Leaves self.new result (take_shorthand shorthand.now g) }
    {
        let operators = operators_of(alloc, shorthand)?;
        self.insert_operators(operators.as_slice())?;
        if self.is_full() {
            return Ok(());
        }
        let statements = statements_of(alloc, shorthand)?;
        self.assert_all(statements)?;
        Ok(())
    }

    /// Takes what a trait declares, and then what its items state over all operators that are gathered. `Wrong` has
    /// what is wrong with its declarations, or else with its items, as `larch_traits_items` tells it.
    pub fn take_own(&mut self, alloc: Global, raw: &RawTrait) -> Result<(), TraitRefusal>
        ensures { (g : Gathered) → Keeps self.old g → Leaves self.new result (take_own raw.now g) }
    {
        let declared = declare(alloc, raw.declarations.as_slice())?;
        self.insert_operators(declared.as_slice())?;
        self.take_items(alloc, raw)?;
        Ok(())
    }

    /// Takes what stands in a trait beside its references: its shorthands, then its declarations and items. Gives all
    /// that is gathered then; what it states itself needs no discharge. `Wrong` has what is wrong with a shorthand, a
    /// declaration or an item first, or else SIZE at the trait's name where a limit is passed.
    pub fn take_rest(self, alloc: Global, raw: &RawTrait) -> Result<Flat, TraitRefusal>
        ensures { (g : Gathered) → Keeps self g
            → Answers cause result (after (take_rest raw.now g) (λ t. Ok (gathered_in t))) }
    {
        let mut store = self;
        store.take_shorthands(alloc, raw.shorthands.as_slice())?;
        store.take_own(alloc, raw)?;
        let flat = store.finish(alloc, raw)?;
        Ok(flat)
    }

    // Takes what shorthands stand for, in order.
    #[tactic(auto, using(crate::proofs::Leaving::all_gone, crate::proofs::Leaving::all_gone_at))]
    fn take_shorthands(
        &mut self,
        alloc: Global,
        shorthands: &[RawShorthand],
    ) -> Result<(), TraitRefusal>
        ensures { (g : Gathered) → Keeps self.old g
            → Leaves self.new result (all_taken take_shorthand shorthands.now g) }
    {
        for shorthand in shorthands {
            self.take_shorthand(alloc, shorthand)?;
        }
        Ok(())
    }

    // Takes what the items of a trait state.
    fn take_items(&mut self, alloc: Global, raw: &RawTrait) -> Result<(), TraitRefusal>
        ensures { (g : Gathered) → Keeps self.old g → Leaves self.new result (take_items raw.now g) }
    {
        let statements = self.state(alloc, raw.items.as_slice())?;
        self.assert_all(statements)?;
        Ok(())
    }

    // What items state over the operators.
    fn state(&self, alloc: Global, items: &[RawItem]) -> Result<Statements, TraitRefusal>
        ensures { Answers cause result (items_state self.now.gathered.operators items.now) }
    {
        let operators = copy_operators(alloc, self.operators())?;
        let signature = Signature::from_operators(alloc, operators)?;
        state_items(alloc, &signature, items)
    }

    // All that is gathered, unless a limit is passed.
    fn finish(self, alloc: Global, raw: &RawTrait) -> Result<Flat, TraitRefusal>
        ensures { (g : Gathered) → Keeps self g
            → Answers cause result (after (after (within raw.now.name.pos g) (λ h. Ok (finish_trait raw.now h)))
            (λ t. Ok (gathered_in t))) }
    {
        if self.is_too_large() {
            return Err(TraitRefusal::Wrong(raw.name.pos, Code::Size));
        }
        let flat = self.into_flat(alloc)?;
        Ok(flat)
    }

    // All that is kept; what is stated itself needs no discharge.
    fn into_flat(self, alloc: Global) -> Result<Flat, Memory>
        ensures { IfOk result (λ flat. flat ≡ discharge_stated self.gathered) }
    {
        let Gathering {
            operators,
            marked,
            discharge,
            ..
        } = self;
        let operators = listed(alloc, operators)?;
        let discharge = new_among(alloc, &marked, discharge)?;
        Ok(Flat {
            operators,
            marked,
            discharge,
        })
    }
}

// The operators of a set.
fn listed(alloc: Global, operators: IndexSet<Operator>) -> Result<Operators, Memory>
    ensures { IfOk result (λ listed. listed ≡ operators.keys) }
{
    let mut listed = Sequence::new(alloc);
    for operator in operators {
        listed.push(operator)?;
    }
    Ok(listed)
}
