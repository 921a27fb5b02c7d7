//! What holds of renamings by pairs, for crates above to cite. No function here does anything.
ghost use Rattle.std.specs.Prelude.{◌≡◌, ℕ, List, find, map, Some, false};
ghost use Rattle.larch_term.specs.BuiltIn.{is_built_in};
ghost use Rattle.larch_term.specs.Equality.{same_operator};
ghost use Rattle.larch_term.specs.Operator.{PlainOperator, plain};
ghost use Rattle.larch_term.specs.declared.statement.Statement.{Statement};
ghost use Rattle.larch_renaming.specs.Renaming.{renamed_statement};
ghost use Rattle.larch_import_names.specs.Names.{renaming_or, renaming, operator_by, sort_or, IsNamed};
ghost use Rattle.larch_import_names.specs.Sorted.{OfOperator, HasNamedSorts};
ghost use Rattle.larch_import_names.specs.declared.pairs.OperatorPair.{OperatorPair};
ghost use Rattle.larch_import_names.specs.declared.pairs.Renaming.{Renaming};

/// What becomes of sorts that aren't named doesn't matter to operators and statements whose sorts are named.
pub fn named_sorts_decide()
    ensures operator { (by : Renaming) (new other : List ℕ → List ℕ) (f : PlainOperator) → OfOperator (IsNamed by) f
        → operator_by (sort_or new by) by f ≡ operator_by (sort_or other by) by f }
    ensures statement { (by : Renaming) (new other : List ℕ → List ℕ) (s : Statement) → HasNamedSorts by s
        → renamed_statement (renaming_or new by) s ≡ renamed_statement (renaming_or other by) s }
{}

/// Where the new operator of a pair stands at the new sorts of the old one, it is the one in its place.
pub fn pairs_give_operators()
    ensures { (by : Renaming) (f : PlainOperator) (p : OperatorPair) (n m : List ℕ) → is_built_in f ≡ false
        → find (λ q. same_operator q.old f) by.operators ≡ Some p → f.name ≡ plain n → p.new.name ≡ plain m
        → p.new.domain ≡ map (sort_or (λ s. s) by) f.domain → p.new.range ≡ sort_or (λ s. s) by f.range
        → (renaming by).operator f ≡ p.new }
{}
