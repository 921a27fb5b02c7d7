ghost use Rattle.std.specs.Prelude.{◌≡◌, ◌≤◌, ◌∷◌, [], All, Ok, IfOk, IfErr, OnOk};
ghost use Rattle.larch_derive.specs.Predicates.{Extends};
ghost use Rattle.larch_prove_adding.specs.Equation.{IsSaid, sides_in};
ghost use Rattle.larch_prove_adding.specs.KeptFacts.{AreSaid, facts_of};
ghost use Rattle.larch_prove_adding.specs.Turns.{HasRoom, IsStopped, IsTaken, Tells, course_of, manner_of};
ghost use Rattle.larch_prove_invariant.specs.ProveMeaningFacts.{add, max_fact_number};
ghost use Rattle.larch_prove_invariant.specs.ProveMeaningLevels.{work_result};
ghost use Rattle.larch_rewrite.specs.RuleSet.{BelongsTo};
ghost use Rattle.larch_store.specs.Stored.{Grows};

use crate::equation::SaidEquation;
use crate::facts::Facts;
use crate::normal::{NormalSides, normal_sides};
use crate::treating::{Adding, Manner, treat};
use larch_base::Memory;
use larch_derive::Builder;
use larch_rewrite::RewriteRefusal;
use larch_store::Store;
use std::alloc::Global;

impl Facts {
    /// Adds an equation from the line that says it. `Limit` and `TooLarge` come exactly where they are the defined
    /// events; the facts may then have some of the new ones. The builder has further lines, none of them bad.
    #[tactic(auto, using(larch_derive::proofs::Growth::extends_same, larch_store::proofs::Growth::grows_refl))]
    pub fn add<'a>(
        &mut self,
        alloc: Global,
        store: &mut Store,
        builder: &mut Builder,
        manner: &Manner<'a>,
        equation: SaidEquation,
    ) -> Result<(), RewriteRefusal>
        requires equation { IsSaid builder.old equation }
        requires said { AreSaid builder.old self.old }
        requires kept { BelongsTo store.old self.old.rules }
        ensures added { OnOk result
            (work_result (add (manner_of manner.now.precedence.now manner.now.name) (sides_in equation)
            (facts_of self.old) manner.now.budget) ≡ Ok (facts_of self.new)) }
        ensures refused { IfErr result (Tells (add (manner_of manner.now.precedence.now manner.now.name)
            (sides_in equation) (facts_of self.old) manner.now.budget)) }
        ensures said { OnOk result (AreSaid builder.new self.new) }
        ensures kept { OnOk result (BelongsTo store.new self.new.rules) }
        ensures grows { Grows store.old store.new }
        ensures extends { Extends builder.old builder.new }
    {
        number_is_small(manner.name.number);
        let waiting = alone(alloc, equation)?;
        let mut adding = Adding {
            waiting,
            made: 0,
            left: manner.budget,
        };
        while let Some(equation) = adding.waiting.pop() {
            take(self, store, builder, manner, &mut adding, equation)?;
        }
        Ok(())
    }
}

// A number of the code is one that a fact's name may have.
pub(crate) fn number_is_small(number: u32)
    ensures { number ≤ max_fact_number }
{
    let _ = number;
}

// An equation that waits by itself.
pub(crate) fn alone(alloc: Global, equation: SaidEquation) -> Result<Vec<SaidEquation>, Memory>
    ensures { IfOk result (λ es. es.items ≡ equation ∷ []) }
{
    let mut waiting = Vec::with_capacity(alloc, 1)?;
    waiting.push(equation)?;
    Ok(waiting)
}

// An equation that waited is taken: its sides are normalised, and it is treated.
#[tactic(auto, using(larch_derive::proofs::Growth::extends_same, larch_store::proofs::Growth::grows_refl))]
pub(crate) fn take<'a>(
    facts: &mut Facts,
    store: &mut Store,
    builder: &mut Builder,
    manner: &Manner<'a>,
    adding: &mut Adding,
    equation: SaidEquation,
) -> Result<(), RewriteRefusal>
    requires equation { IsSaid builder.old equation }
    requires said { AreSaid builder.old facts.old }
    requires kept { BelongsTo store.old facts.old.rules }
    requires waiting { All (IsSaid builder.old) adding.old.waiting.items }
    requires room { HasRoom adding.old.made facts.old }
    ensures taken { OnOk result (IsTaken (manner_of manner.now.precedence.now manner.now.name) (sides_in equation)
        adding.old.left adding.new.left (course_of adding.old.made adding.old.waiting.items facts.old)
        (course_of adding.new.made adding.new.waiting.items facts.new)) }
    ensures refused { IfErr result (IsStopped (manner_of manner.now.precedence.now manner.now.name) (sides_in equation)
        adding.old.left (facts_of facts.old)) }
    ensures said { OnOk result (AreSaid builder.new facts.new) }
    ensures kept { OnOk result (BelongsTo store.new facts.new.rules) }
    ensures waiting { OnOk result (All (IsSaid builder.new) adding.new.waiting.items) }
    ensures room { OnOk result (HasRoom adding.new.made facts.new) }
    ensures grows { Grows store.old store.new }
    ensures extends { Extends builder.old builder.new }
{
    let alloc = *adding.waiting.allocator();
    let found = normal_sides(alloc, facts, store, builder, &equation, adding.left)?;
    let NormalSides { equation, left } = found;
    adding.left = left;
    treat(facts, store, builder, manner, adding, equation)
}
