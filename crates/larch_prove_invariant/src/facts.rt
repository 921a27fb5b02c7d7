//! Laws on facts: what follows from them. No function here does anything.
ghost use Rattle.std.specs.Prelude.{◌≡◌, ◌<◌, ◌≤◌, ℕ, Bool, List, All, map, None, Ok, Some};
ghost use Rattle.larch_term.specs.Sorts.{WellSorted};
ghost use Rattle.larch_term.specs.declared.statement.Statement.{Statement};
ghost use Rattle.larch_methods.specs.PairsCriticalOverlap.{IsApplication};
ghost use Rattle.larch_methods.specs.PairsCriticalPairs.{critical_pairs};
ghost use Rattle.larch_methods.specs.PairsCriticalPairPair.{Pair};
ghost use Rattle.larch_methods.specs.PairsCriticalPairRule.{Rule};
ghost use Rattle.larch_derive.specs.Predicates.{HasEquation, Known};
ghost use Rattle.larch_derive.specs.declared.builder.Builder.{Builder};
ghost use Rattle.larch_methods.specs.DeriveBoxesBoxes.{IsPart};
ghost use Rattle.larch_derive_formulas.specs.Consequences.{Follows};
ghost use Rattle.larch_derive_formulas.specs.DeriveLinesRules.{AreKnownEntries};
ghost use Rattle.larch_methods.specs.RewriteMeaningSides.{Sides};
ghost use Rattle.larch_methods.specs.ProveMeaningFacts.{deduce};
ghost use Rattle.larch_methods.specs.ProvePlansPlanning.{equate};
ghost use Rattle.larch_prove_invariant.specs.Holding.{open_constants};

/// What the definition deduces from an equation and what the lines of `larch_derive_formulas` say agree: whichever
/// number of a deduction row something follows by, it is what is deduced, so the first is as good as any; what is
/// deduced follows by some number from 1 to 7; and where nothing follows by these, nothing is deduced.
pub fn deductions_agree()
    ensures follows { (e : Sides) (n : ℕ) (es : List Statement) → WellSorted e.left → Follows n (equate e) es
        → (found : List Sides) × ((deduce e ≡ Some found) × (map equate found ≡ es)) }
    ensures deduced { (e : Sides) (found : List Sides) → deduce e ≡ Some found
        → (n : ℕ) × ((0 < n) × ((n ≤ 7) × Follows n (equate e) (map equate found))) }
    ensures nothing { (e : Sides)
        → ((n : ℕ) (es : List Statement) → 0 < n → n ≤ 7 → Follows n (equate e) es → ⊥) → deduce e ≡ None }
{}

/// What takes the places of variables in the critical pairs of two facts that lines say can be written: a pair is made
/// by instances of these lines. So can both sides of each pair.
pub fn pairs_can_be_written()
    ensures entries { (b : Builder) (n m : ℕ) (r q : Rule) (one : Bool) (ps : List Pair) → All IsPart (open_constants b)
        → HasEquation b n r.left r.right → HasEquation b m q.left q.right → IsApplication q.left
        → critical_pairs r q one ≡ Ok ps → All (λ p. AreKnownEntries b p.first × AreKnownEntries b p.second) ps }
    ensures sides { (b : Builder) (n m : ℕ) (r q : Rule) (one : Bool) (ps : List Pair) → All IsPart (open_constants b)
        → HasEquation b n r.left r.right → HasEquation b m q.left q.right → IsApplication q.left
        → critical_pairs r q one ≡ Ok ps → All (λ p. Known b p.left × Known b p.right) ps }
{}
