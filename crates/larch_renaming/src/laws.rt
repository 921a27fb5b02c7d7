//! What holds of all renamings, for crates above to cite. No function here does anything.
ghost use Rattle.std.specs.Prelude.{◌≡◌, ℕ, List, map, All, option_map};
ghost use Rattle.larch_term.specs.BuiltIn.{IsBuiltIn, built_in_name};
ghost use Rattle.larch_term.specs.Operator.{OperatorName, PlainOperator, plain};
ghost use Rattle.larch_term.specs.Place.{at, put};
ghost use Rattle.larch_term.specs.Sorts.{sort_of, WellSorted, IsOver};
ghost use Rattle.larch_term.specs.Statement.{IsStatementOver, IsWellSortedTheory, statement_zero};
ghost use Rattle.larch_term.specs.Substitution.{instance_of, Fits};
ghost use Rattle.larch_term.specs.Tree.{Tree, nodes};
ghost use Rattle.larch_term.specs.Variable.{occurrences};
ghost use Rattle.larch_term.specs.declared.built_in.BuiltIn.{BuiltIn};
ghost use Rattle.larch_term.specs.declared.statement.Statement.{Statement};
ghost use Rattle.larch_term.specs.declared.statement.Theory.{Theory};
ghost use Rattle.larch_term.specs.declared.substitution.Entry.{Entry};
ghost use Rattle.larch_term.specs.declared.variable.Variable.{Variable};
ghost use Rattle.larch_renaming.specs.Renaming.{Renaming, rename_tree, renamed_variable, renamed_entry};
ghost use Rattle.larch_renaming.specs.Renaming.{renamed_statement, renamed_theory};
ghost use Rattle.larch_renaming.specs.Renaming.{no_renaming, after, by_name, FitsSignatures, KeepsBuiltIns, Carries};
ghost use Rattle.larch_renaming.specs.Renaming.{AreAlike, AreAlikeOver, TellsApart};

/// A renaming that fits signatures takes a term to one of the other sort, and a well sorted term to a well sorted one.
pub fn renaming_keeps_sorts()
    ensures sort { (r : Renaming) → FitsSignatures r → (t : Tree) → sort_of (rename_tree r t) ≡ r.sort (sort_of t) }
    ensures well_sorted { (r : Renaming) → FitsSignatures r → (t : Tree) → WellSorted t → WellSorted (rename_tree r t) }
{}

/// What is over operators is, renamed, over operators among which theirs are known.
pub fn renaming_carries_operators()
    ensures term { (r : Renaming) (fs gs : List PlainOperator) → Carries r fs gs → (t : Tree)
        → IsOver fs t → IsOver gs (rename_tree r t) }
    ensures statement { (r : Renaming) (fs gs : List PlainOperator) → FitsSignatures r → Carries r fs gs
        → (s : Statement) → IsStatementOver fs s → IsStatementOver gs (renamed_statement r s) }
    ensures theory { (r : Renaming) → FitsSignatures r → KeepsBuiltIns r → (t : Theory)
        → IsWellSortedTheory t → IsWellSortedTheory (renamed_theory r t) }
    ensures own { (r : Renaming) → KeepsBuiltIns r → (fs : List PlainOperator) → Carries r fs (map r.operator fs) }
{}

/// What is built in stays so, and so does what every theory states of the truth values.
pub fn renaming_keeps_built_ins()
    ensures operator { (r : Renaming) → KeepsBuiltIns r → (f : PlainOperator) → IsBuiltIn f → IsBuiltIn (r.operator f) }
    ensures statement { (r : Renaming) → KeepsBuiltIns r → renamed_statement r statement_zero ≡ statement_zero }
{}

/// To substitute and then rename is to rename and then substitute, where no variable becomes that of an entry that was
/// another one's before; so it is where no two sorts become one.
pub fn renaming_of_substituted()
    ensures term { (r : Renaming) (es : List Entry) (t : Tree) → TellsApart r es (occurrences t)
        → rename_tree r (instance_of es t) ≡ instance_of (map (renamed_entry r) es) (rename_tree r t) }
    ensures apart { (r : Renaming) (es : List Entry) (vs : List Variable)
        → ((s z : List ℕ) → r.sort s ≡ r.sort z → s ≡ z) → TellsApart r es vs }
    ensures fits { (r : Renaming) → FitsSignatures r → (es : List Entry) → Fits es → Fits (map (renamed_entry r) es) }
    ensures over { (r : Renaming) (fs gs : List PlainOperator) → Carries r fs gs → (es : List Entry)
        → All (λ e. IsOver fs e.term) es → All (λ e. IsOver gs e.term) (map (renamed_entry r) es) }
{}

/// A renamed term has the places of the term, with the renamed subterms; to put and then rename is to rename and then
/// put.
pub fn renaming_of_places()
    ensures at { (r : Renaming) (t : Tree) (p : List ℕ) → at (rename_tree r t) p ≡ option_map (rename_tree r) (at t p) }
    ensures put { (r : Renaming) (t : Tree) (p : List ℕ) (v : Tree)
        → rename_tree r (put t p v) ≡ put (rename_tree r t) p (rename_tree r v) }
{}

/// Each occurrence of a variable becomes one at the other sort, and no node comes or goes.
pub fn renaming_of_occurrences()
    ensures occurrences { (r : Renaming) (t : Tree)
        → occurrences (rename_tree r t) ≡ map (renamed_variable r) (occurrences t) }
    ensures size { (r : Renaming) (t : Tree) → nodes (rename_tree r t) ≡ nodes t }
{}

/// The renaming that changes nothing.
pub fn unchanged_is_identity()
    ensures term { (t : Tree) → rename_tree no_renaming t ≡ t }
    ensures statement { (s : Statement) → renamed_statement no_renaming s ≡ s }
    ensures theory { (t : Theory) → renamed_theory no_renaming t ≡ t }
{}

/// One renaming after another is the composed one.
pub fn renamings_compose()
    ensures term { (r q : Renaming) (t : Tree) → rename_tree (after r q) t ≡ rename_tree r (rename_tree q t) }
    ensures statement { (r q : Renaming) (s : Statement)
        → renamed_statement (after r q) s ≡ renamed_statement r (renamed_statement q s) }
    ensures theory { (r q : Renaming) (t : Theory)
        → renamed_theory (after r q) t ≡ renamed_theory r (renamed_theory q t) }
{}

/// Two renamings that do the same with sorts and operators, of all or of those that a term is over, give one term.
pub fn alike_renamings_agree()
    ensures term { (r q : Renaming) → AreAlike r q → (t : Tree) → rename_tree r t ≡ rename_tree q t }
    ensures statement { (r q : Renaming) → AreAlike r q → (s : Statement)
        → renamed_statement r s ≡ renamed_statement q s }
    ensures theory { (r q : Renaming) → AreAlike r q → (t : Theory) → renamed_theory r t ≡ renamed_theory q t }
    ensures term_over { (r q : Renaming) (fs : List PlainOperator) → AreAlikeOver r q fs → (t : Tree)
        → IsOver fs t → rename_tree r t ≡ rename_tree q t }
    ensures statement_over { (r q : Renaming) (fs : List PlainOperator) → AreAlikeOver r q fs → (s : Statement)
        → IsStatementOver fs s → renamed_statement r s ≡ renamed_statement q s }
    ensures theory_over { (r q : Renaming) (t : Theory) → AreAlikeOver r q t.operators
        → IsWellSortedTheory t → renamed_theory r t ≡ renamed_theory q t }
{}

/// Other names for operators fit their signatures, and keep the built-in ones where they keep their names.
pub fn names_are_a_renaming()
    ensures fits { (new : OperatorName → OperatorName) → FitsSignatures (by_name new) }
    ensures keeps { (new : OperatorName → OperatorName)
        → ((b : BuiltIn) → new (plain (built_in_name b)) ≡ plain (built_in_name b)) → KeepsBuiltIns (by_name new) }
{}
