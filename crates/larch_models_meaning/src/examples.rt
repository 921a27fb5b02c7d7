//! What the definitions say of small interpretations, and of what is none. No function here does anything.
ghost use Rattle.std.specs.Prelude.{◌≡◌, ℕ, [], ◌∷◌};
ghost use Rattle.larch_term.specs.declared.statement.Statement.TheVariants.{Equation};
ghost use Rattle.larch_calculus.specs.Example.{numbers, x_number, y_number};
ghost use Rattle.larch_models_meaning.specs.Examples.{one_number, no_truth, too_large, second_taken, generated_by_sums};
ghost use Rattle.larch_models_meaning.specs.Examples.{partitioned_by_sums};
ghost use Rattle.larch_models_meaning.specs.Interpretation.{IsInterpretation};
ghost use Rattle.larch_models_meaning.specs.Models.{Holds, IsModel};

/// Assignments keep to the values of the variables' sorts: where a sort has one value, its variables are equal.
pub fn assignments_keep_to_sorts()
    ensures { Holds one_number (Equation x_number y_number) }
{}

/// A set is closed under an operator if the operator leads out of it from no arguments that are all in it: one that
/// takes its second argument leads out of no set.
pub fn sets_that_are_closed()
    ensures { Holds second_taken generated_by_sums → ⊥ }
{}

/// Values that an observer tells apart at any of its places are told apart.
pub fn values_that_are_shown()
    ensures { Holds second_taken partitioned_by_sums }
{}

/// Bool has no other values than two.
pub fn truth_values_are_two()
    ensures { IsInterpretation [] no_truth → ⊥ }
{}

/// In a model the tables of the theory's operators have values of their ranges.
pub fn tables_keep_to_ranges()
    ensures { IsModel too_large numbers → ⊥ }
{}
