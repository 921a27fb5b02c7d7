//! What holds of all normal forms, for crates above to cite. No function here does anything.
ghost use Rattle.std.specs.Prelude.{◌≡◌, ℕ, List, [], All, Some};
ghost use Rattle.larch_term.specs.Operator.{PlainOperator};
ghost use Rattle.larch_term.specs.Sorts.{IsTermOver, WellSorted, sort_of};
ghost use Rattle.larch_term.specs.Substitution.{Fits, instance_of};
ghost use Rattle.larch_term.specs.Tree.{Tree};
ghost use Rattle.larch_term.specs.declared.substitution.Entry.{Entry};
ghost use Rattle.larch_rewrite_meaning.specs.Matching.{match_term};
ghost use Rattle.larch_rewrite_meaning.specs.NormalForm.{IsNormal, LeavesAtMost, normal, pass};
ghost use Rattle.larch_rewrite_meaning.specs.Sides.{AreSidesOver, Sides};
ghost use Rattle.larch_rewrite_meaning.specs.Work.{Made, after_forming};

/// The normal form of a term is one pass over it, in which each application goes on with the normal form of what it
/// makes. So nobody has to know how the definition counts.
pub fn normal_goes_on()
    ensures { (rules : List Sides) (t : Tree) (b : ℕ)
        → normal rules t b ≡ after_forming t (pass (λ u c. normal rules u c) rules t b) }
{}

/// What a pattern matches is the pattern with its variables replaced, each by a term of its sort.
pub fn matches_are_instances()
    ensures instance { (p t : Tree) (es : List Entry) → match_term p t [] ≡ Some es → instance_of es p ≡ t }
    ensures fits { (p t : Tree) (es : List Entry) → WellSorted t → match_term p t [] ≡ Some es → Fits es }
{}

/// No more is left of a budget than there was.
pub fn budget_falls()
    ensures { (rules : List Sides) (t : Tree) (b : ℕ) → LeavesAtMost b (normal rules t b) }
{}

/// A normal form has no place at which a rule applies; and a term without such a place is its own normal form, at no
/// cost. So a normal form is normal again.
pub fn normal_forms_are_normal()
    ensures made { (rules : List Sides) (t : Tree) (b : ℕ) (u : Tree) (r : ℕ) → normal rules t b ≡ Made u r
        → IsNormal rules u }
    ensures stays { (rules : List Sides) (t : Tree) (b : ℕ) → IsNormal rules t → normal rules t b ≡ Made t b }
{}

/// Where rules and a term are well sorted over operators, so is the normal form, and it has the term's sort.
pub fn normal_forms_keep_sorts()
    ensures { (fs : List PlainOperator) (rules : List Sides) (t : Tree) (b : ℕ) (u : Tree) (r : ℕ)
        → All (AreSidesOver fs) rules → IsTermOver fs t → normal rules t b ≡ Made u r
        → IsTermOver fs u × (sort_of u ≡ sort_of t) }
{}
