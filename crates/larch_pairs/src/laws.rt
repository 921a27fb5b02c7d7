//! What holds of the definitions, for crates above to cite. No function here does anything.
ghost use Rattle.std.specs.Prelude.{◌≡◌, ◌≤◌, ℕ, List, [], length, All, AllPairs, Ok, Some, None, false};
ghost use Rattle.larch_term.specs.Operator.{PlainOperator};
ghost use Rattle.larch_term.specs.Sorts.{sort_of, IsOver, WellSorted};
ghost use Rattle.larch_term.specs.Substitution.{is_entry_of, instance_of, Fits};
ghost use Rattle.larch_term.specs.Tree.{Tree, Forest, app};
ghost use Rattle.larch_term.specs.declared.substitution.Entry.{Entry};
ghost use Rattle.larch_pairs.specs.Demand.{demand};
ghost use Rattle.larch_pairs.specs.Unify.{unify, unify_from, variables_of_both};
ghost use Rattle.larch_pairs.specs.declared.demand.Demand.TheVariants.{Nothing};

/// A unifier that is answered makes both terms one, done once or twice, and binds no variable twice.
pub fn unifiers_unify()
    ensures unifies { (t u : Tree) (r : List Entry) → unify t u ≡ Ok (Some r) → instance_of r t ≡ instance_of r u }
    ensures once { (t u : Tree) (r : List Entry) → unify t u ≡ Ok (Some r) → (x : Tree)
        → instance_of r (instance_of r x) ≡ instance_of r x }
    ensures different { (t u : Tree) (r : List Entry) → unify t u ≡ Ok (Some r)
        → AllPairs (λ d e. is_entry_of e.name e.sort d ≡ false) r }
{}

/// Each other substitution that makes both terms one is an instance of the answered one.
pub fn unifiers_are_most_general()
    ensures { (t u : Tree) (r es : List Entry) → unify t u ≡ Ok (Some r) → instance_of es t ≡ instance_of es u
        → (x : Tree) → instance_of es (instance_of r x) ≡ instance_of es x }
{}

/// Where no unifier is answered, no substitution makes both terms one.
pub fn no_unifier_exists()
    ensures { (t u : Tree) (es : List Entry) → unify t u ≡ Ok None → instance_of es t ≡ instance_of es u → ⊥ }
{}

/// Equal terms ask for nothing: their equation is dropped.
pub fn equal_sides_are_dropped()
    ensures { (t : Tree) → demand t t ≡ Nothing }
{}

/// More rounds than there are variables answer the same: unification ends of itself.
pub fn rounds_suffice()
    ensures { (t u : Tree) (n : ℕ) → length (variables_of_both t u) ≤ n → unify_from n (demand t u) [] ≡ unify t u }
{}

/// A unifier of well sorted terms keeps sorts, where both have one sort or are applications.
pub fn unifiers_keep_sorts()
    ensures one_sort { (t u : Tree) (r : List Entry) → WellSorted t → WellSorted u → sort_of t ≡ sort_of u
        → unify t u ≡ Ok (Some r) → Fits r }
    ensures applications { (f g : PlainOperator) (ts us : Forest) (r : List Entry) → WellSorted (app f ts)
        → WellSorted (app g us) → unify (app f ts) (app g us) ≡ Ok (Some r) → Fits r }
{}

/// A unifier of terms over operators is over them.
pub fn unifiers_keep_operators()
    ensures { (fs : List PlainOperator) (t u : Tree) (r : List Entry) → IsOver fs t → IsOver fs u
        → unify t u ≡ Ok (Some r) → All (λ e. IsOver fs e.term) r }
{}
