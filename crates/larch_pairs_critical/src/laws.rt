//! What holds of the definitions, for crates above to cite. No function here does anything.
ghost use Rattle.std.specs.Prelude.{◌≡◌, ℕ, Bool, false, List, All, AllPairs, map, Ok};
ghost use Rattle.larch_term.specs.Operator.{PlainOperator};
ghost use Rattle.larch_term.specs.Sorts.{IsOver};
ghost use Rattle.larch_term.specs.Substitution.{Fits, is_entry_of};
ghost use Rattle.larch_pairs.specs.Unify.{variables_of_both};
ghost use Rattle.larch_pairs_critical.specs.Overlap.{AreSorted, IsApplication, Overlaps};
ghost use Rattle.larch_pairs_critical.specs.Pairs.{critical_pairs};
ghost use Rattle.larch_pairs_critical.specs.Variables.{IsNumberedPair, sorts_of_rules, variable_in};
ghost use Rattle.larch_pairs_critical.specs.declared.pair.Pair.{Pair};
ghost use Rattle.larch_pairs_critical.specs.declared.pair.Rule.{Rule};

/// What a critical pair is: both its sides come from one term, the first rule's left side under the pair's first
/// substitution. The right side is what the first rule makes of it at the root, the left one what the second rule makes
/// of it at the place.
pub fn pairs_come_from_one_term()
    ensures { (r q : Rule) (b : Bool) (ps : List Pair) → critical_pairs r q b ≡ Ok ps → All (Overlaps r q) ps }
{}

/// Where both sides of each rule are well sorted and of one sort, so are those of their pairs, if the second rule's
/// left side is no variable: a variable of another sort would be bound to what stands at a place.
pub fn pairs_keep_sorts()
    ensures { (r q : Rule) (b : Bool) (ps : List Pair) → AreSorted r.left r.right → AreSorted q.left q.right
        → IsApplication q.left → critical_pairs r q b ≡ Ok ps → All (λ p. AreSorted p.left p.right) ps }
{}

/// Critical pairs of rules over operators are over them.
pub fn pairs_keep_operators()
    ensures { (fs : List PlainOperator) (r q : Rule) (b : Bool) (ps : List Pair) → IsOver fs r.left × IsOver fs r.right
        → IsOver fs q.left × IsOver fs q.right → critical_pairs r q b ≡ Ok ps
        → All (λ p. IsOver fs p.left × IsOver fs p.right) ps }
{}

/// What takes the place of a rule's variable is well sorted and of its sort, where the sides of pairs are: also of a
/// variable that is left in neither side.
pub fn substitutions_keep_sorts()
    ensures { (r q : Rule) (b : Bool) (ps : List Pair) → AreSorted r.left r.right → AreSorted q.left q.right
        → IsApplication q.left → critical_pairs r q b ≡ Ok ps → All (λ p. Fits p.first × Fits p.second) ps }
{}

/// It is over the operators that the rules are over.
pub fn substitutions_keep_operators()
    ensures { (fs : List PlainOperator) (r q : Rule) (b : Bool) (ps : List Pair) → IsOver fs r.left × IsOver fs r.right
        → IsOver fs q.left × IsOver fs q.right → critical_pairs r q b ≡ Ok ps
        → All (λ p. All (λ e. IsOver fs e.term) p.first × All (λ e. IsOver fs e.term) p.second) ps }
{}

/// The substitutions of a pair bind the variables of their rules, each of them once.
pub fn substitutions_bind_variables()
    ensures first { (r q : Rule) (b : Bool) (ps : List Pair) → critical_pairs r q b ≡ Ok ps
        → All (λ p. map variable_in p.first ≡ variables_of_both r.left r.right) ps }
    ensures second { (r q : Rule) (b : Bool) (ps : List Pair) → critical_pairs r q b ≡ Ok ps
        → All (λ p. map variable_in p.second ≡ variables_of_both q.left q.right) ps }
    ensures different { (r q : Rule) (b : Bool) (ps : List Pair) → critical_pairs r q b ≡ Ok ps
        → All (λ p. AllPairs (λ d e. is_entry_of e.name e.sort d ≡ false) p.first
        × AllPairs (λ d e. is_entry_of e.name e.sort d ≡ false) p.second) ps }
{}

/// All variables of a pair, in its sides and in the terms of its substitutions, are called v with a number: no mark is
/// left that set the rules apart. Each has the sort of a variable of the rules.
pub fn variables_are_numbered()
    ensures { (r q : Rule) (b : Bool) (ps : List Pair) → critical_pairs r q b ≡ Ok ps
        → All (IsNumberedPair (sorts_of_rules r q)) ps }
{}
