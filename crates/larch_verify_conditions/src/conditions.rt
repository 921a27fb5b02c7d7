//! Certificates that are accepted, and whether what they say is derivable. No function here does anything.
ghost use Rattle.std.specs.Prelude.{◌≡◌, [], ◌∷◌, None};
ghost use Rattle.larch_term.specs.Statement.{IsWellSortedTheory};
ghost use Rattle.larch_term.specs.declared.statement.Statement.TheVariants.{Equation};
ghost use Rattle.larch_calculus.specs.Derivable.{Derivable};
ghost use Rattle.larch_calculus.specs.Example.{numbers, sum_from_nought};
ghost use Rattle.larch_calculus.specs.Formula.{constant};
ghost use Rattle.larch_calculus.specs.Renaming.{HasPlainNames};
ghost use Rattle.larch_certificate.specs.declared.line.Line.TheVariants.{Axiom};
ghost use Rattle.larch_verify_meaning.specs.Acceptance.{verdict};
ghost use Rattle.larch_verify_conditions.specs.Counterexamples.{with_boxed, freed_own};
ghost use Rattle.larch_soundness.specs.Counterexamples.{term_x, constant_b, box_constant, ill_sorted};

/// The law used: the worked certificate is accepted, as the definitions compute, so `0 + x == x` is derivable.
pub fn worked_is_derivable()
    ensures { Derivable numbers sum_from_nought }
{}

/// A theory whose own constant is named like the first one of a box of line 1: in such a box it counts as the box's, so
/// that `x == b` is accepted where `c == b` is stated.
pub fn plain_names_are_needed()
    ensures well_sorted { IsWellSortedTheory with_boxed }
    ensures accepted { verdict with_boxed (Equation term_x (constant constant_b)) freed_own ≡ None }
    ensures underivable { Derivable with_boxed (Equation term_x (constant constant_b)) → ⊥ }
{}

/// A theory without operators that states an equation of two constants: what it states is accepted, but it isn't well
/// sorted, as all is that is derivable.
pub fn well_sorted_statements_are_needed()
    ensures plain { HasPlainNames ill_sorted }
    ensures accepted { verdict ill_sorted (Equation (constant (box_constant 0)) (constant (box_constant 1)))
        (Axiom 1 ∷ []) ≡ None }
    ensures underivable { Derivable ill_sorted (Equation (constant (box_constant 0)) (constant (box_constant 1))) → ⊥ }
{}
