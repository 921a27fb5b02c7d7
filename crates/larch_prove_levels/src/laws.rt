//! Laws on levels, each a call without work: what the definitions come to by facts, goals and numbers alone.
ghost use Rattle.std.specs.Prelude.{◌≡◌, ◌∷◌, List, Ok, Err, true, false};
ghost use Rattle.larch_base.specs.declared.code.Code.{Code};
ghost use Rattle.larch_prove_levels.specs.Derived.{Worked, derived_in, if_settled, on_parent, with_derived, worked_in};
ghost use Rattle.larch_prove_levels.specs.Opened.{Opened, opened_by, with_next};
ghost use Rattle.larch_prove_boxes.specs.ProveMeaningLevels.{Level, OfProof, OfSubgoal, Proof};
ghost use Rattle.larch_prove_boxes.specs.ProveMeaningLevels.{derive, is_settled, opened_from, rise};
ghost use Rattle.larch_prove_boxes.specs.ProveMeaningLevels.{settle_goal, with_mark};
ghost use Rattle.larch_prove_boxes.specs.ProveMeaningPlans.{Subgoal, holds};
ghost use Rattle.larch_prove_adding.specs.RewriteMeaningSides.{Sides};
ghost use Rattle.larch_term.specs.Tree.{Tree};
ghost use Rattle.larch_base_meaning.specs.Steps.{after};

/// The next subgoal of a method is opened by its parent's facts and the number of the next hypothesis: it stays open,
/// or is proved at once, so that the levels rise, or opening it is refused.
#[tactic(auto, using(crate::proofs::Rises::next_open, crate::proofs::Rises::next_proved, crate::proofs::Rises::next_refused))]
pub fn next_subgoals_are_opened()
    ensures open { (parent : Level) (below : List Level) (s : Subgoal) (ss : List Subgoal) (p : Proof) (o : Opened)
        → opened_by p.ranks p.limit s (record { facts = parent.facts; next = p.next_hypothesis }) ≡ Ok o
        → is_settled (with_next parent below s ss o p).current ≡ false
        → opened_from (λ q. rise below parent q) parent below (s ∷ ss) p ≡ Ok (with_next parent below s ss o p) }
    ensures proved { (parent : Level) (below : List Level) (s : Subgoal) (ss : List Subgoal) (p : Proof) (o : Opened)
        → opened_by p.ranks p.limit s (record { facts = parent.facts; next = p.next_hypothesis }) ≡ Ok o
        → is_settled (with_next parent below s ss o p).current ≡ true
        → opened_from (λ q. rise below parent q) parent below (s ∷ ss) p
        ≡ rise (record parent { remaining = ss } ∷ below) (with_next parent below s ss o p).current
        (with_next parent below s ss o p) }
    ensures refused { (parent : Level) (below : List Level) (s : Subgoal) (ss : List Subgoal) (p : Proof) (code : Code)
        → opened_by p.ranks p.limit s (record { facts = parent.facts; next = p.next_hypothesis }) ≡ Err code
        → opened_from (λ q. rise below parent q) parent below (s ∷ ss) p ≡ Err code }
{}

/// A level that is proved leads to the next subgoal of the method below, or to an adding there, which is one by the
/// facts and the goal of that level.
#[tactic(auto, using(crate::proofs::Rises::rise_subgoal, crate::proofs::Rises::rise_proof, crate::proofs::Rises::derive_by))]
pub fn levels_rise()
    ensures subgoal { (parent : Level) (below : List Level) (level : Level) (p : Proof) → level.purpose ≡ OfSubgoal
        → rise (parent ∷ below) level p
        ≡ opened_from (λ q. rise below parent q) parent below parent.remaining (with_mark true p) }
    ensures formula { (parent : Level) (below : List Level) (level : Level) (f : Tree) (p : Proof)
        → level.purpose ≡ OfProof f
        → rise (parent ∷ below) level p
        ≡ after (derive (holds f) (on_parent parent below p)) (if_settled (λ q. rise below q.current q)) }
    ensures added { (e : Sides) (p : Proof)
        → derive e p
        ≡ after (derived_in p.ranks p.limit e p.next_derived (worked_in p)) (λ made. Ok (with_derived made p)) }
{}

/// Where the current goal isn't proved nothing follows, and else the levels rise.
#[tactic(auto, using(crate::proofs::Rises::settle_open, crate::proofs::Rises::settle_proved))]
pub fn goals_settle()
    ensures open { (p : Proof) → is_settled p.current ≡ false → settle_goal p ≡ Ok p }
    ensures proved { (p : Proof) → is_settled p.current ≡ true → settle_goal p ≡ rise p.below p.current p }
{}
