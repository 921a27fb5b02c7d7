//! Parts that are joined, computed. No function here does anything.
ghost use Rattle.std.specs.Prelude.{◌≡◌, [], ◌∷◌, ◌++◌, None};
ghost use Rattle.larch_calculus.specs.Example.{numbers, sum_from_nought};
ghost use Rattle.larch_verify_meaning.specs.Acceptance.{verdict};
ghost use Rattle.larch_verify_meaning.specs.Examples.{sample};
ghost use Rattle.larch_derive_join.specs.Examples.{lemma_part, citing_part, citing_lines, clause_part, induction_part};
ghost use Rattle.larch_derive_join.specs.Examples.{induction_lines};
ghost use Rattle.larch_derive_join.specs.Joined.{join_parts};

/// A line that cites an equation repeats it, and numbers of lines and boxes are moved on. What is joined is accepted.
pub fn equation_is_repeated()
    ensures lines { join_parts (lemma_part ∷ citing_part ∷ []) ≡ sample ++ citing_lines }
    ensures accepted { verdict numbers sum_from_nought (join_parts (lemma_part ∷ citing_part ∷ [])) ≡ None }
{}

/// A clause that is cited is named where it is shown.
pub fn clause_is_named()
    ensures { join_parts (clause_part ∷ induction_part ∷ []) ≡ induction_lines }
{}
