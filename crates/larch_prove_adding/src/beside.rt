ghost use Rattle.std.specs.Prelude.{◌≡◌, Ok, IfErr, OnOk};
ghost use Rattle.larch_derive.specs.Predicates.{Extends};
ghost use Rattle.larch_prove_adding.specs.Beside.{IsApart, manner_beside};
ghost use Rattle.larch_prove_adding.specs.Equation.{IsSaid, sides_in};
ghost use Rattle.larch_prove_adding.specs.KeptFacts.{AreSaid, facts_of};
ghost use Rattle.larch_prove_adding.specs.Turns.{Tells};
ghost use Rattle.larch_prove_invariant.specs.ProveMeaningFacts.{add};
ghost use Rattle.larch_prove_invariant.specs.ProveMeaningLevels.{work_result};
ghost use Rattle.larch_rewrite.specs.RuleSet.{BelongsTo};
ghost use Rattle.larch_store.specs.Stored.{Grows};

use crate::adding::{alone, number_is_small, take};
use crate::equation::SaidEquation;
use crate::facts::Facts;
use crate::treating::{Adding, Manner};
use larch_base::FactName;
use larch_derive::Builder;
use larch_rewrite::RewriteRefusal;
use larch_store::Store;
use std::alloc::Global;

/// An equation that is an instance of a fact, with the fact's name.
#[derive(Drop)]
pub struct Instance {
    pub equation: SaidEquation,
    pub fact: FactName,
}

impl Facts {
    /// Adds an instance of a fact from the line that says it, while the facts of that name serve as no rules; they keep
    /// their places. `Limit` and `TooLarge` come exactly where they are the defined events; the facts may then have
    /// some of the new ones. The builder has further lines, none of them bad.
    #[tactic(auto, using(larch_derive::proofs::Growth::extends_same, larch_store::proofs::Growth::grows_refl))]
    pub fn add_beside<'a>(
        &mut self,
        alloc: Global,
        store: &mut Store,
        builder: &mut Builder,
        manner: &Manner<'a>,
        instance: Instance,
    ) -> Result<(), RewriteRefusal>
        requires equation { IsSaid builder.old instance.equation }
        requires apart { IsApart instance.fact manner.now.name }
        requires said { AreSaid builder.old self.old }
        requires kept { BelongsTo store.old self.old.rules }
        ensures added { OnOk result (work_result (add (manner_beside instance.fact manner.now.precedence.now
            manner.now.name) (sides_in instance.equation) (facts_of self.old) manner.now.budget)
            ≡ Ok (facts_of self.new)) }
        ensures refused { IfErr result (Tells (add (manner_beside instance.fact manner.now.precedence.now
            manner.now.name) (sides_in instance.equation) (facts_of self.old) manner.now.budget)) }
        ensures said { OnOk result (AreSaid builder.new self.new) }
        ensures kept { OnOk result (BelongsTo store.new self.new.rules) }
        ensures grows { Grows store.old store.new }
        ensures extends { Extends builder.old builder.new }
    {
        number_is_small(manner.name.number);
        let Instance { equation, fact } = instance;
        let mut serving = self.without(&fact)?;
        let waiting = alone(alloc, equation)?;
        let mut adding = Adding {
            waiting,
            made: 0,
            left: manner.budget,
        };
        while let Some(equation) = adding.waiting.pop() {
            let place = serving.len();
            take(&mut serving, store, builder, manner, &mut adding, equation)?;
            self.follow(&serving, place)?;
        }
        Ok(())
    }
}
