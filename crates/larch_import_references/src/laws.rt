//! What holds of the pairs of references, for crates above to cite. No function here does anything.
ghost use Rattle.std.specs.Prelude.{◌≡◌, ℕ, List};
ghost use Rattle.larch_term.specs.Operator.{PlainOperator};
ghost use Rattle.larch_term.specs.Sorts.{IsKnown};
ghost use Rattle.larch_term.specs.Statement.{IsStatementOver};
ghost use Rattle.larch_term.specs.declared.statement.Statement.{Statement};
ghost use Rattle.larch_renaming.specs.Renaming.{renamed_statement, KeepsBuiltIns};
ghost use Rattle.larch_sorts_meaning.specs.Laws.{IsSortOf, OperatorSorts, StatementSorts};
ghost use Rattle.larch_flat_meaning.specs.Replacements.{Replacements, new_operator, new_sort};
ghost use Rattle.larch_flat_meaning.specs.Replacements as flat;
ghost use Rattle.larch_import_names.specs.Names.{IsNamed, renaming};
ghost use Rattle.larch_import_references.specs.Pairs.{ArePlain, HaveLetters, pairs_by};

/// The pairs of a reference name each sort of the trait that it names, and give what the reference's replacements give:
/// for sorts, for operators, and so for statements.
pub fn pairs_give_replacements()
    ensures named { (by : Replacements) (fs : List PlainOperator) → HaveLetters by fs → (s : List ℕ) → IsSortOf fs s
        → IsNamed (pairs_by by fs) s }
    ensures sort { (by : Replacements) (fs : List PlainOperator) → HaveLetters by fs → (s : List ℕ) → IsSortOf fs s
        → (renaming (pairs_by by fs)).sort s ≡ new_sort by s }
    ensures operator { (by : Replacements) (fs : List PlainOperator) → HaveLetters by fs → ArePlain fs
        → KeepsBuiltIns (flat.renaming by) → (f : PlainOperator) → IsKnown fs f → OperatorSorts (IsSortOf fs) f
        → (renaming (pairs_by by fs)).operator f ≡ new_operator by f }
    ensures statement { (by : Replacements) (fs : List PlainOperator) → HaveLetters by fs → ArePlain fs
        → KeepsBuiltIns (flat.renaming by) → (s : Statement) → IsStatementOver fs s
        → StatementSorts (IsSortOf fs) s
        → renamed_statement (renaming (pairs_by by fs)) s ≡ renamed_statement (flat.renaming by) s }
{}
