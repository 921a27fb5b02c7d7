ghost use Rattle.std.specs.Prelude.{◌≡◌, Ok, OnOk, IfErr, IfOk, List, find};
ghost use Rattle.larch_derive.specs.declared.builder.Builder.{Builder as is_builder};
ghost use Rattle.larch_prove_work.specs.ProveAddingEquation.{IsSaid, sides_in};
ghost use Rattle.larch_prove_work.specs.ProveAddingKeptFacts.{AreSaid, facts_of};
ghost use Rattle.larch_prove_work.specs.ProveDraftDraft.{Stands};
ghost use Rattle.larch_prove_facts.specs.Derivation.{StandsFor};
ghost use Rattle.larch_prove_work.specs.ProveInvariantBook.{Kept};
ghost use Rattle.larch_prove_meaning.specs.Levels.{Proof};
ghost use Rattle.larch_prove_meaning.specs.Steps.{has_name, sides_or, without};
ghost use Rattle.larch_prove_work.specs.ProveSettingsTelling.{Tells};
ghost use Rattle.larch_store.specs.Numbered.{Numbered};
ghost use Rattle.larch_term.specs.declared.statement.Statement.{Statement as is_statement};
ghost use Rattle.larch_term.specs.declared.statement.Theory.{Theory as is_theory};

use larch_base::{Code, FactName, Memory};
use larch_prove_work::from_prove_adding::{Facts, SaidEquation};
use larch_prove_work::from_prove_draft::Draft;
use larch_prove_work::from_prove_settings::CommandRefusal;
use std::alloc::Global;

// The equation of the fact of a name, with its line. It is refused with FACT where none has the name.
pub(crate) fn fact_named(
    alloc: Global,
    facts: &Facts,
    name: &FactName,
) -> Result<SaidEquation, CommandRefusal>
    ensures named { IfOk result (λ e. sides_or (find (has_name name.now) (facts_of facts.now).rules)
        ≡ Ok (sides_in e)) }
    ensures refused { IfErr result (Tells (sides_or (find (has_name name.now) (facts_of facts.now).rules))) }
    ensures said { IfOk result (λ e. (b : is_builder) → AreSaid b facts.now → IsSaid b e) }
{
    let Some(equation) = facts.find(alloc, name)? else {
        return Err(CommandRefusal::Wrong(Code::Fact));
    };
    Ok(equation)
}

// Takes the facts of a name out of those of the current level.
pub(crate) fn take_out(draft: &mut Draft, name: &FactName) -> Result<(), Memory>
    ensures stands { OnOk result ((t : is_theory) (s : is_statement) (store : List Numbered) (p : Proof) (k : Kept)
        (ks : List Kept) → Stands t s store draft.old p k ks
        → StandsFor t s store draft.new (without name.now p) ks) }
    ensures builder { draft.new.builder ≡ draft.old.builder }
{
    let others = draft.current.facts.without(name)?;
    draft.current.facts = others;
    Ok(())
}
