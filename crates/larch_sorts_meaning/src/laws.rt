//! What holds of all readings, for crates above to cite. No function here does anything.
ghost use Rattle.std.specs.Prelude.{◌≡◌, ℕ, All, List, Option, None, Ok, Err};
ghost use Rattle.larch_base.specs.declared.fault.Fault.{Fault};
ghost use Rattle.larch_raw.specs.declared.equation.RawEquation.{RawEquation};
ghost use Rattle.larch_term.specs.Operator.{PlainOperator};
ghost use Rattle.larch_term.specs.Sorts.{WellSorted, IsOver};
ghost use Rattle.larch_term.specs.Statement.{IsStatementOver};
ghost use Rattle.larch_term.specs.Tree.{Tree};
ghost use Rattle.larch_term.specs.declared.statement.Statement.{Statement};
ghost use Rattle.larch_sorts_meaning.specs.Read.{read_equation, read_term};
ghost use Rattle.larch_sorts_meaning.specs.Scope.{HasVariablesOf, IsInScope, Variables};
ghost use Rattle.larch_sorts_meaning.specs.Unknown.{unknown_sort};
ghost use Rattle.std.specs.Bool.{Decides};
ghost use Rattle.larch_sorts_known.specs.Sorts.{exists_sort};
ghost use Rattle.larch_sorts_meaning.specs.Laws.{IsSortOf, StatementSorts};
ghost use Rattle.larch_sorts_meaning.specs.Stands.{Stands};
ghost use Rattle.larch_sorts_meaning.specs.Readings.{ReadsEquation, ReadsLone, IsOnly};

/// What is answered is the only reading, and each fault stands where readings say.
pub fn answers_are_readings()
    ensures equation { (fs : List PlainOperator) (vs : Variables) (raw : RawEquation) (s : Statement)
        → read_equation fs vs raw ≡ Ok s → (unknown_sort fs raw ≡ None) × IsOnly (ReadsEquation fs vs raw) s }
    ensures equation_refused { (fs : List PlainOperator) (vs : Variables) (raw : RawEquation) (f : Fault)
        → read_equation fs vs raw ≡ Err f → Stands fs vs raw (ReadsEquation fs vs raw) f }
    ensures term { (fs : List PlainOperator) (vs : Variables) (wanted : Option (List ℕ)) (raw : RawEquation)
        (t : Tree) → read_term fs vs wanted raw ≡ Ok t
        → (unknown_sort fs raw ≡ None) × IsOnly (ReadsLone fs vs wanted raw) t }
    ensures term_refused { (fs : List PlainOperator) (vs : Variables) (wanted : Option (List ℕ)) (raw : RawEquation)
        (f : Fault) → read_term fs vs wanted raw ≡ Err f → Stands fs vs raw (ReadsLone fs vs wanted raw) f }
{}

/// The only reading is what is answered, and so is each fault that stands where readings say.
pub fn readings_are_answers()
    ensures equation { (fs : List PlainOperator) (vs : Variables) (raw : RawEquation) (s : Statement)
        → unknown_sort fs raw ≡ None → IsOnly (ReadsEquation fs vs raw) s → read_equation fs vs raw ≡ Ok s }
    ensures equation_refused { (fs : List PlainOperator) (vs : Variables) (raw : RawEquation) (f : Fault)
        → Stands fs vs raw (ReadsEquation fs vs raw) f → read_equation fs vs raw ≡ Err f }
    ensures term { (fs : List PlainOperator) (vs : Variables) (wanted : Option (List ℕ)) (raw : RawEquation)
        (t : Tree) → raw.right ≡ None → unknown_sort fs raw ≡ None → IsOnly (ReadsLone fs vs wanted raw) t
        → read_term fs vs wanted raw ≡ Ok t }
    ensures term_refused { (fs : List PlainOperator) (vs : Variables) (wanted : Option (List ℕ)) (raw : RawEquation)
        (f : Fault) → raw.right ≡ None → Stands fs vs raw (ReadsLone fs vs wanted raw) f
        → read_term fs vs wanted raw ≡ Err f }
{}

/// What is read is well sorted over the operators and the built-in ones, and its variables are in scope.
pub fn readings_are_well_sorted()
    ensures equation { (fs : List PlainOperator) (vs : Variables) (raw : RawEquation) (s : Statement)
        → ReadsEquation fs vs raw s → IsStatementOver fs s }
    ensures equation_in_scope { (fs : List PlainOperator) (vs : Variables) (raw : RawEquation) (s : Statement)
        → ReadsEquation fs vs raw s → IsInScope vs s }
    ensures term { (fs : List PlainOperator) (vs : Variables) (wanted : Option (List ℕ)) (raw : RawEquation)
        (t : Tree) → ReadsLone fs vs wanted raw t → WellSorted t × IsOver fs t }
    ensures term_in_scope { (fs : List PlainOperator) (vs : Variables) (wanted : Option (List ℕ)) (raw : RawEquation)
        (t : Tree) → ReadsLone fs vs wanted raw t → HasVariablesOf vs t }
{}

/// The sorts that exist are Bool and those that stand in operators.
pub fn existing_is_told()
    ensures { (fs : List PlainOperator) (s : List ℕ) → Decides (exists_sort fs s) (IsSortOf fs s) }
{}

/// Each sort in what is read exists, where those of the variables in scope do.
pub fn sorts_read_exist()
    ensures { (fs : List PlainOperator) (vs : Variables) (raw : RawEquation) (s : Statement)
        → All (λ v. IsSortOf fs v.1) vs → ReadsEquation fs vs raw s → StatementSorts (IsSortOf fs) s }
{}
