//! What holds of the definitions, for crates above to cite. No function here does anything.
ghost use Rattle.std.specs.Prelude.{◌≡◌, List};
ghost use Rattle.std.specs.Bool.{Decides};
ghost use Rattle.larch_term.specs.BuiltIn.{IsBuiltIn, is_built_in};
ghost use Rattle.larch_term.specs.Equality.{same_name, same_operator, same_statement, same_tree};
ghost use Rattle.larch_term.specs.Operator.{OperatorName, PlainOperator};
ghost use Rattle.larch_term.specs.Tree.{Tree, Forest, app, forest_of, list_of};
ghost use Rattle.larch_term.specs.Truth.{truth, is_truth};
ghost use Rattle.larch_term.specs.declared.statement.Statement.{Statement};

/// What the tests of equality tell.
pub fn equality_is_told()
    ensures name { (n m : OperatorName) → Decides (same_name n m) (n ≡ m) }
    ensures operator { (f g : PlainOperator) → Decides (same_operator f g) (f ≡ g) }
    ensures term { (t u : Tree) → Decides (same_tree t u) (t ≡ u) }
    ensures statement { (s z : Statement) → Decides (same_statement s z) (s ≡ z) }
{}

/// What the test for built-in operators tells.
pub fn built_in_is_told()
    ensures { (f : PlainOperator) → Decides (is_built_in f) (IsBuiltIn f) }
{}

/// What the test for the constant true tells.
pub fn truth_is_told()
    ensures { (t : Tree) → Decides (is_truth t) (t ≡ truth) }
{}

/// Lists of terms and arguments are one thing in two forms, and equal applications have equal parts.
pub fn lists_are_arguments()
    ensures list { (ts : List Tree) → list_of (forest_of ts) ≡ ts }
    ensures arguments { (ts : Forest) → forest_of (list_of ts) ≡ ts }
    ensures parts { (f g : PlainOperator) (ts us : List Tree) → app f (forest_of ts) ≡ app g (forest_of us)
        → (f ≡ g) × (ts ≡ us) }
{}
