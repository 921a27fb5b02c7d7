//! What holds of all terms, for crates above to cite.
ghost use Rattle.std.specs.Prelude.{◌≡◌, ◌≢◌, ◌↔◌, ℕ, ◌+◌, List, [], ◌++◌, length, map, sum_by, All, AllPairs};
ghost use Rattle.std.specs.Prelude.{Contains};
ghost use Rattle.std.specs.Prelude.{Some, option_and_then};
ghost use Rattle.std.specs.Bool.{Decides};
ghost use Rattle.std.specs.List.{flat_map};
ghost use Rattle.larch_term.specs.Operator.{PlainOperator};
ghost use Rattle.larch_term.specs.Place.{at, put, places, preorder};
ghost use Rattle.larch_term.specs.Sorts.{sort_of, WellSorted, IsOver};
ghost use Rattle.larch_term.specs.Substitution.{instance_of, image, compose, Fits};
ghost use Rattle.larch_term.specs.Tree.{Tree, var, nodes};
ghost use Rattle.larch_term.specs.Variable.{occurrences, variables_of, same_variable};
ghost use Rattle.larch_term.specs.declared.substitution.Entry.{Entry};
ghost use Rattle.larch_term.specs.declared.variable.Variable.{Variable};
ghost use Rattle.larch_term_law.specs.Apart.{Part};

/// A substitution whose terms are well sorted and have the sorts of their variables keeps sorts.
pub fn substitution_keeps_sorts()
    ensures sort { (es : List Entry) (t : Tree) → Fits es → sort_of (instance_of es t) ≡ sort_of t }
    ensures well_sorted { (es : List Entry) (t : Tree) → Fits es → WellSorted t → WellSorted (instance_of es t) }
{}

/// A substitution brings in no operators but those of its terms.
pub fn substitution_keeps_operators()
    ensures { (fs : List PlainOperator) (es : List Entry) (t : Tree) → All (λ e. IsOver fs e.term) es → IsOver fs t
        → IsOver fs (instance_of es t) }
{}

/// One substitution after another is the composed one.
pub fn substitution_composes()
    ensures { (es ds : List Entry) (t : Tree) → instance_of (compose es ds) t ≡ instance_of es (instance_of ds t) }
{}

/// Each occurrence of a variable, one node, becomes the nodes of its image.
pub fn substituted_size()
    ensures { (es : List Entry) (t : Tree)
        → nodes (instance_of es t) + length (occurrences t)
        ≡ nodes t + sum_by (λ v. nodes (image es v.name v.sort)) (occurrences t) }
{}

/// The places of a term are places of the substituted term; further places are those of the images.
pub fn substituted_places()
    ensures kept { (es : List Entry) (t : Tree) (p : List ℕ) (u : Tree) → at t p ≡ Some u
        → at (instance_of es t) p ≡ Some (instance_of es u) }
    ensures further { (es : List Entry) (t : Tree) (p q : List ℕ) (u : Tree) → at t p ≡ Some u
        → at (instance_of es t) (p ++ q) ≡ at (instance_of es u) q }
    ensures put { (es : List Entry) (t : Tree) (p : List ℕ) (u v : Tree) → at t p ≡ Some u
        → instance_of es (put t p v) ≡ put (instance_of es t) p (instance_of es v) }
{}

/// A place goes on where its front leads to, and what is put at a place stands there.
pub fn places_compose()
    ensures front { (t : Tree) (p q : List ℕ) → at t (p ++ q) ≡ option_and_then (λ u. at u q) (at t p) }
    ensures put { (t : Tree) (p : List ℕ) (u v : Tree) → at t p ≡ Some u → at (put t p v) p ≡ Some v }
    ensures same { (t : Tree) (p : List ℕ) (u : Tree) → at t p ≡ Some u → put t p u ≡ t }
{}

/// Subterms of well sorted terms are well sorted, and the replacement of a subterm by a well sorted term of its
/// sort keeps sorts.
pub fn replacement_keeps_sorts()
    ensures subterm { (t : Tree) (p : List ℕ) (u : Tree) → at t p ≡ Some u → WellSorted t → WellSorted u }
    ensures sort { (t : Tree) (p : List ℕ) (u v : Tree) → at t p ≡ Some u → sort_of v ≡ sort_of u
        → sort_of (put t p v) ≡ sort_of t }
    ensures well_sorted { (t : Tree) (p : List ℕ) (u v : Tree) → at t p ≡ Some u → sort_of v ≡ sort_of u
        → WellSorted t → WellSorted v → WellSorted (put t p v) }
{}

/// A replacement brings in no operators but those of the term that is put.
pub fn replacement_keeps_operators()
    ensures subterm { (fs : List PlainOperator) (t : Tree) (p : List ℕ) (u : Tree) → at t p ≡ Some u → IsOver fs t
        → IsOver fs u }
    ensures whole { (fs : List PlainOperator) (t : Tree) (p : List ℕ) (v : Tree) → IsOver fs t → IsOver fs v
        → IsOver fs (put t p v) }
{}

/// Two substitutions give one term exactly where they agree on its occurrences.
pub fn substitutions_agree()
    ensures { (es ds : List Entry) (t : Tree)
        → (instance_of es t ≡ instance_of ds t)
        ↔ All (λ v. image es v.name v.sort ≡ image ds v.name v.sort) (occurrences t) }
{}

/// The occurrences of a substituted term are those of the images, in order. So a term becomes closed where all its
/// variables become closed terms, and one that is closed stays as it is.
pub fn substituted_occurrences()
    ensures images { (es : List Entry) (t : Tree)
        → occurrences (instance_of es t) ≡ flat_map (λ v. occurrences (image es v.name v.sort)) (occurrences t) }
    ensures closed { (es : List Entry) (t : Tree)
        → All (λ v. occurrences (image es v.name v.sort) ≡ []) (occurrences t) → occurrences (instance_of es t) ≡ [] }
    ensures stays { (es : List Entry) (t : Tree) → occurrences t ≡ [] → instance_of es t ≡ t }
{}

/// A variable occurs exactly where it stands at a place, and what occurs in a subterm occurs in the term.
pub fn occurrences_have_places()
    ensures place { (t : Tree) (v : Variable) → Contains (occurrences t) v
        → (p : List ℕ) × (at t p ≡ Some (var v.name v.sort)) }
    ensures occurs { (t : Tree) (p : List ℕ) (v : Variable) → at t p ≡ Some (var v.name v.sort)
        → Contains (occurrences t) v }
    ensures subterm { (t : Tree) (p : List ℕ) (u : Tree) (v : Variable)
        → at t p ≡ Some u → Contains (occurrences u) v → Contains (occurrences t) v }
{}

/// The list of a term's variables has those that occur, none of them twice; what the test for variables tells.
pub fn variables_are_occurrences()
    ensures members { (t : Tree) (v : Variable) → Contains (variables_of t) v ↔ Contains (occurrences t) v }
    ensures once { (t : Tree) → AllPairs (λ v w. v ≢ w) (variables_of t) }
    ensures test { (v w : Variable) → Decides (same_variable v w) (v ≡ w) }
{}

/// One put after another: below the place of the first, above it, or at a place that parts from it.
pub fn puts_compose()
    ensures below { (t : Tree) (p q : List ℕ) (u v : Tree) → put (put t p u) (p ++ q) v ≡ put t p (put u q v) }
    ensures above { (t : Tree) (p q : List ℕ) (u v : Tree) → put (put t (p ++ q) u) p v ≡ put t p v }
    ensures subterm { (t : Tree) (p q : List ℕ) (u v : Tree) → at t p ≡ Some u
        → put t (p ++ q) v ≡ put t p (put u q v) }
    ensures elsewhere { (t : Tree) (p q : List ℕ) (v : Tree) → Part p q → at (put t p v) q ≡ at t q }
    ensures exchange { (t : Tree) (p q : List ℕ) (u v : Tree) → Part p q → put (put t p u) q v ≡ put (put t q v) p u }
{}

/// The list of a term's places has exactly those at which something stands, in preorder, none of them twice, and as
/// many as the term has nodes.
pub fn places_are_listed()
    ensures listed { (t : Tree) (p : List ℕ) (u : Tree) → at t p ≡ Some u → Contains (places t) p }
    ensures stands { (t : Tree) (p : List ℕ) → Contains (places t) p → (u : Tree) × (at t p ≡ Some u) }
    ensures preorder { (t : Tree) → map (at t) (places t) ≡ map Some (preorder t) }
    ensures once { (t : Tree) → AllPairs (λ p q. p ≢ q) (places t) }
    ensures count { (t : Tree) → length (places t) ≡ nodes t }
{}
