//! What a proof opens with, for crates above to cite. No function here does anything.
ghost use Rattle.std.specs.Prelude.{◌≡◌, ℕ, List, Ok};
ghost use Rattle.larch_prove_adding.specs.ProveMeaningLevels.{EarlierDuty, Proof, normal_goal, settle_goal, with_facts};
ghost use Rattle.larch_prove_adding.specs.ProveMeaningReplays.{duty_opened, goal_made, lemmas_added, theory_added};
ghost use Rattle.larch_prove_opening.specs.FirstFacts.{facts_with_axioms, facts_with_lemmas, first_facts};
ghost use Rattle.larch_term.specs.declared.statement.Statement.{Statement};
ghost use Rattle.larch_base_meaning.specs.Steps.{after};

/// What the theory and the lemmas add to a proof are facts alone, and these go by its facts, precedence and limit; so a
/// duty opens with them, and goes on to its goal.
pub fn openings_go_by_facts()
    ensures axioms { (k : ℕ) (ss : List Statement) (p : Proof) → theory_added k ss p
        ≡ after (facts_with_axioms p.ranks p.limit k ss p.current.facts) (λ facts. Ok (with_facts facts p)) }
    ensures lemmas { (ls : List EarlierDuty) (p : Proof) → lemmas_added ls p
        ≡ after (facts_with_lemmas p.ranks p.limit ls p.current.facts) (λ facts. Ok (with_facts facts p)) }
    ensures both { (p : Proof) → after (theory_added 1 p.theory.statements p) (λ q. lemmas_added q.lemmas q)
        ≡ after (first_facts p.ranks p.limit p.theory.statements p.lemmas p.current.facts)
        (λ facts. Ok (with_facts facts p)) }
    ensures duty { (s : Statement) (p : Proof) → duty_opened s p
        ≡ after (first_facts p.ranks p.limit p.theory.statements p.lemmas p.current.facts)
        (λ facts. after (goal_made s (with_facts facts p)) (λ g. after (normal_goal g) settle_goal)) }
{}
