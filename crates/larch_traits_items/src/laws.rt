//! What holds of all that is stated and presented, for crates above to cite. No function here does anything.
ghost use Rattle.std.specs.Prelude.{◌≡◌, ◌≢◌, List, All, AllPairs, Ok};
ghost use Rattle.larch_raw.specs.Worded.{WordedTrait};
ghost use Rattle.larch_raw.specs.declared.equation.RawItem.{RawItem};
ghost use Rattle.larch_raw.specs.declared.equation.RawTrait.{RawTrait};
ghost use Rattle.larch_term.specs.BuiltIn.{IsBuiltIn};
ghost use Rattle.larch_term.specs.Operator.{PlainOperator};
ghost use Rattle.larch_term.specs.Statement.{IsStatementOver, IsTheory, IsWellSortedTheory};
ghost use Rattle.larch_term.specs.declared.statement.Statement.{Statement};
ghost use Rattle.larch_term.specs.declared.statement.Theory.{Theory};
ghost use Rattle.larch_sorts.specs.SortsMeaningLaws.{IsSortOf, StatementSorts, StatementVariables};
ghost use Rattle.larch_traits_items.specs.Items.{item_states};
ghost use Rattle.larch_base_meaning.specs.Word.{IsWord};
ghost use Rattle.larch_traits_items.specs.Laws.{NamesOwn};
ghost use Rattle.larch_traits_items.specs.Presentation.{presentation_of};

/// What an item states over operators is well sorted over them, its clauses name these alone, and each sort in it is
/// Bool or stands in one of them.
pub fn stated_is_well_sorted()
    ensures well_sorted { (fs : List PlainOperator) (item : RawItem) (ss : List Statement)
        → item_states fs item ≡ Ok ss → All (IsStatementOver fs) ss }
    ensures own { (fs : List PlainOperator) (item : RawItem) (ss : List Statement) → item_states fs item ≡ Ok ss
        → All (NamesOwn fs) ss }
    ensures sorts { (fs : List PlainOperator) (item : RawItem) (ss : List Statement) → item_states fs item ≡ Ok ss
        → All (StatementSorts (IsSortOf fs)) ss }
{}

/// What a trait presents has no built-in operator among its own and is well sorted. It is a theory where no operator
/// is declared twice.
pub fn presented_is_theory()
    ensures own { (raw : RawTrait) (t : Theory) → presentation_of raw ≡ Ok t → All (λ f. IsBuiltIn f → ⊥) t.operators }
    ensures well_sorted { (raw : RawTrait) (t : Theory) → presentation_of raw ≡ Ok t → IsWellSortedTheory t }
    ensures theory { (raw : RawTrait) (t : Theory) → presentation_of raw ≡ Ok t → AllPairs (λ f g. f ≢ g) t.operators
        → IsTheory t }
{}

/// The clauses of what a trait presents name its own operators, and each sort in its statements is Bool or stands in
/// one of them.
pub fn presented_names_its_own()
    ensures operators { (raw : RawTrait) (t : Theory) → presentation_of raw ≡ Ok t
        → All (NamesOwn t.operators) t.statements }
    ensures sorts { (raw : RawTrait) (t : Theory) → presentation_of raw ≡ Ok t
        → All (StatementSorts (IsSortOf t.operators)) t.statements }
{}

/// Each sort and each variable in what a trait presents is a word, where the trait is written with words.
pub fn presented_in_words()
    ensures sorts { (raw : RawTrait) (t : Theory) → WordedTrait raw → presentation_of raw ≡ Ok t
        → All (StatementSorts IsWord) t.statements }
    ensures variables { (raw : RawTrait) (t : Theory) → WordedTrait raw → presentation_of raw ≡ Ok t
        → All (StatementVariables IsWord) t.statements }
{}
