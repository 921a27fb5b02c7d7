//! What holds of the ordering, for crates above to cite. No function here does anything.
ghost use Rattle.std.specs.Prelude.{◌≡◌, ◌↔◌, IsTrue, ℕ, Bool, true, false, ◌&&◌, ◌||◌, List, ◌∷◌, Some};
ghost use Rattle.std.specs.List.{list_any, list_all};
ghost use Rattle.larch_term.specs.Operator.{PlainOperator};
ghost use Rattle.larch_term.specs.Place.{at, put};
ghost use Rattle.larch_term.specs.Substitution.{instance_of};
ghost use Rattle.larch_term.specs.Tree.{Tree, Forest, var, app, list_of};
ghost use Rattle.larch_term.specs.declared.substitution.Entry.{Entry};
ghost use Rattle.larch_order.specs.Greater.{Greater, greater, heads_beat};
ghost use Rattle.larch_term.specs.Equality.{same_tree};
ghost use Rattle.larch_order.specs.declared.precedence.Ranked.{Ranked};

/// What is computed is the ordering.
pub fn greater_is_computed()
    ensures { (ranks : List Ranked) (s t : Tree) → (IsTrue (greater ranks s t) ↔ Greater ranks s t) }
{}

/// The cases of the function that computes it: a variable is greater than nothing. An application is greater than a
/// term where one of its arguments is that term or greater, or where its head beats that of the term and it is greater
/// than each argument of the term.
pub fn cases_of_greater()
    ensures variable { (ranks : List Ranked) (n s : List ℕ) (t : Tree) → greater ranks (var n s) t ≡ false }
    ensures than_variable { (ranks : List Ranked) (f : PlainOperator) (ss : Forest) (n s : List ℕ) →
        greater ranks (app f ss) (var n s) ≡
        list_any (λ u. same_tree u (var n s) || greater ranks u (var n s)) (list_of ss) }
    ensures than_application { (ranks : List Ranked) (f g : PlainOperator) (ss ts : Forest) →
        greater ranks (app f ss) (app g ts) ≡
        (list_any (λ s. same_tree s (app g ts) || greater ranks s (app g ts)) (list_of ss)
        || (heads_beat ranks f ss g (list_of ts) && list_all (greater ranks (app f ss)) (list_of ts))) }
{}

/// Every term is greater than its proper subterms.
pub fn greater_than_subterms()
    ensures { (ranks : List Ranked) (t u : Tree) (k : ℕ) (p : List ℕ) → at t (k ∷ p) ≡ Some u → Greater ranks t u }
{}

/// What is greater than a term that is greater than a third is greater than the third.
pub fn greater_is_transitive()
    ensures { (ranks : List Ranked) (a b c : Tree) → Greater ranks a b → Greater ranks b c → Greater ranks a c }
{}

/// No term is greater than itself.
pub fn greater_is_irreflexive()
    ensures { (ranks : List Ranked) (t : Tree) → Greater ranks t t → ⊥ }
{}

/// A term stays greater than another one where both have their variables replaced.
pub fn greater_is_stable()
    ensures { (ranks : List Ranked) (es : List Entry) (t u : Tree) → Greater ranks t u →
        Greater ranks (instance_of es t) (instance_of es u) }
{}

/// A term grows where a greater one is put in the stead of a subterm.
pub fn greater_in_context()
    ensures { (ranks : List Ranked) (t : Tree) (p : List ℕ) (u v : Tree) → at t p ≡ Some u → Greater ranks v u →
        Greater ranks (put t p v) t }
{}
