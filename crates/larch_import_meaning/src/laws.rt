//! What holds of certificates by new names, for crates above to cite. No function here does anything.
ghost use Rattle.std.specs.Prelude.{◌≡◌, ℕ, List, ◌∷◌, Contains};
ghost use Rattle.larch_term.specs.BuiltIn.{bool_sort};
ghost use Rattle.larch_term.specs.Statement.{IsWellSortedTheory};
ghost use Rattle.larch_term.specs.declared.statement.Statement.{Statement};
ghost use Rattle.larch_term.specs.declared.statement.Theory.{Theory};
ghost use Rattle.larch_certificate.specs.declared.line.Line.{Line};
ghost use Rattle.larch_verify_meaning.specs.Acceptance.{Accepts};
ghost use Rattle.larch_verify_meaning.specs.CalculusDerivable.{Derivable};
ghost use Rattle.larch_verify_meaning.specs.CalculusRenaming.{HasPlainNames, IsFaithful};
ghost use Rattle.larch_verify_meaning.specs.LastLine.{EndsWithoutStatedClause};
ghost use Rattle.larch_verify_meaning.specs.RenamingRenaming.{renamed_statement};
ghost use Rattle.larch_import_names.specs.Names.{renaming};
ghost use Rattle.larch_import_names.specs.Sorted.{OfTheory, HasNamedSorts};
ghost use Rattle.larch_import_names.specs.declared.pairs.Renaming.{Renaming};
ghost use Rattle.larch_import_names.specs.declared.pairs.SortPair.{SortPair};
ghost use Rattle.larch_import_meaning.specs.Fresh.{KeepsSorts, fresh_sort, renaming_into};
ghost use Rattle.larch_import_meaning.specs.Imported.{HasRenamed, import_lines};
ghost use Rattle.larch_import_meaning.specs.Lengths.{longest};
ghost use Rattle.larch_import_meaning.specs.Rules.{last_rule};

/// A sort that isn't named becomes none of the theory's own, no new one and not Bool, since it becomes longer than all
/// of them.
pub fn fresh_sorts_are_new()
    ensures own { (by : Renaming) (u : Theory) (c : ℕ) (cs : List ℕ)
        → OfTheory (λ s. fresh_sort (longest by u) (c ∷ cs) ≡ s → ⊥) u }
    ensures pairs { (by : Renaming) (u : Theory) (c : ℕ) (cs : List ℕ) (p : SortPair) → Contains by.sorts p
        → fresh_sort (longest by u) (c ∷ cs) ≡ p.new → ⊥ }
    ensures truth_values { (by : Renaming) (u : Theory) (c : ℕ) (cs : List ℕ)
        → fresh_sort (longest by u) (c ∷ cs) ≡ bool_sort → ⊥ }
{}

/// Where sorts that are named stay apart and Bool stays, the renaming into a theory keeps all sorts apart, and
/// derivations are carried along it.
pub fn renaming_is_faithful()
    ensures { (by : Renaming) (u : Theory) → KeepsSorts by → IsFaithful (renaming_into by u) }
{}

/// A certificate that is accepted over a theory for a statement is accepted by new names over each theory that has the
/// first one by them, for the statement by new names.
pub fn renamed_is_accepted()
    ensures { (by : Renaming) (t u : Theory) (places : List ℕ) (s : Statement) (lines : List Line)
        → HasRenamed by t u places → HasNamedSorts by s → Accepts t s lines
        → Accepts u (renamed_statement (renaming by) s) (import_lines by t u places lines) }
{}

/// So the statement by new names is derivable from the second theory, where its statements are well sorted and its
/// operators have plain names.
pub fn renamed_is_derivable()
    ensures { (by : Renaming) (t u : Theory) (places : List ℕ) (s : Statement) (lines : List Line)
        → IsWellSortedTheory u → HasPlainNames u → HasRenamed by t u places → HasNamedSorts by s → Accepts t s lines
        → Derivable u (renamed_statement (renaming by) s) }
{}

/// The last line keeps its rule.
pub fn last_rule_stays()
    ensures { (by : Renaming) (t u : Theory) (places : List ℕ) (lines : List Line)
        → last_rule (import_lines by t u places lines) ≡ last_rule lines }
{}

/// What is accepted and doesn't end with a line that states a clause doesn't do so by new names.
pub fn renamed_ends_without_clause()
    ensures { (by : Renaming) (t u : Theory) (places : List ℕ) (s : Statement) (lines : List Line)
        → HasRenamed by t u places → Accepts t s lines → EndsWithoutStatedClause t lines
        → EndsWithoutStatedClause u (import_lines by t u places lines) }
{}
