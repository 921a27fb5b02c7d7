//! Certificates that are accepted or refused, computed. No function here does anything.
ghost use Rattle.std.specs.Prelude.{◌≡◌, [], ◌∷◌, ◌++◌, true, false, Some, None, codes};
ghost use Rattle.larch_certificate.specs.TermBuiltIn.{bool_sort};
ghost use Rattle.larch_certificate.specs.TermStatement.{statement_zero};
ghost use Rattle.larch_certificate.specs.TermTree.{var};
ghost use Rattle.larch_certificate.specs.TermStatementStatement.TheVariants as statement;
ghost use Rattle.larch_tables.specs.CalculusExample.{number_sort, nought, plus, x_number, numbers, numbers_generated};
ghost use Rattle.larch_tables.specs.CalculusExample.{sum_from_nought};
ghost use Rattle.larch_tables.specs.CalculusFormula.{constant, apply_two, apply_one};
ghost use Rattle.larch_certificate.specs.Coded.{coded_var};
ghost use Rattle.larch_certificate.specs.declared.line.Line.TheVariants as line;
ghost use Rattle.larch_certificate.specs.declared.symbol.Symbol.TheVariants.{Own, Constant};
ghost use Rattle.larch_verify_meaning.specs.Acceptance.{verdict};
ghost use Rattle.larch_verify_meaning.specs.Certificates.{coded_truth, sums_are_equal};
ghost use Rattle.larch_verify_meaning.specs.Certificates.{by_cases_of, numbers_generated_by};
ghost use Rattle.larch_verify_meaning.specs.Certificates.{predicate_part, set_sort, set_named};
ghost use Rattle.larch_verify_meaning.specs.Certificates.{set_of, element_sort, sets};
ghost use Rattle.larch_verify_meaning.specs.Certificates.{sets_partitioned, same_sets_by, same_sets_of, partition_with};
ghost use Rattle.larch_verify_meaning.specs.Examples.{coded_constant, coded_equation, coded_nought};
ghost use Rattle.larch_verify_meaning.specs.Examples.{coded_x, for_number};
ghost use Rattle.larch_verify_meaning.specs.Examples.{number_part, premise, sum_with, induction_by, sample, with_line};
ghost use Rattle.larch_verify_meaning.specs.LastLine.{ends_with_stated_clause};
ghost use Rattle.larch_verify_meaning.specs.Run.{first_bad};

/// The worked certificate is accepted, and for no other statement; no line of it is bad.
pub fn worked_is_accepted()
    ensures accepted { verdict numbers sum_from_nought sample ≡ None }
    ensures other { verdict numbers numbers_generated sample ≡ Some 13 }
    ensures bad { first_bad numbers sample ≡ None }
{}

/// Its last line isn't an axiom line of a clause. One line alone that says a clause of the theory, or statement 0, is;
/// one that says an equation isn't, nor are lines that go on behind a clause.
pub fn last_lines()
    ensures worked { ends_with_stated_clause numbers sample ≡ false }
    ensures clause { ends_with_stated_clause numbers (line.Axiom 1 ∷ []) ≡ true }
    ensures nought { ends_with_stated_clause numbers (line.Axiom 0 ∷ []) ≡ true }
    ensures equation { ends_with_stated_clause numbers (line.Axiom 2 ∷ []) ≡ false }
    ensures nothing { ends_with_stated_clause numbers (line.Axiom 9 ∷ []) ≡ false }
    ensures behind { ends_with_stated_clause numbers (line.Axiom 1 ∷ line.Refl coded_nought ∷ []) ≡ false }
{}

/// Where one line of it is changed, the first bad line is that one or the one that stands on it.
pub fn changed_lines_are_refused()
    ensures no_statement { verdict numbers sum_from_nought (with_line 2 (line.Axiom 9) sample) ≡ Some 2 }
    ensures ill_sorted { verdict numbers sum_from_nought
        (with_line 5 (line.Inst 2 (for_number (codes "x") (coded_constant (Own 2)) ∷ [])) sample) ≡ Some 5 }
    ensures no_operator { verdict numbers sum_from_nought
        (with_line 5 (line.Inst 2 (for_number (codes "x") (coded_constant (Own 0)) ∷ [])) sample) ≡ Some 5 }
    ensures twice { verdict numbers sum_from_nought (with_line 8
        (line.Inst 3 (for_number (codes "x") coded_nought ∷ for_number (codes "x") premise ∷ [])) sample) ≡ Some 8 }
    ensures later { verdict numbers sum_from_nought
        (with_line 8 (line.Inst 13 (for_number (codes "x") coded_nought ∷ [])) sample) ≡ Some 8 }
    ensures no_constant { verdict numbers sum_from_nought (with_line 8 (line.Inst 3
        (for_number (codes "x") coded_nought ∷ for_number (codes "y") (coded_constant (Constant 7 0)) ∷ []))
        sample) ≡ Some 8 }
    ensures no_hypothesis { verdict numbers sum_from_nought (with_line 9 (line.Hyp 7 2) sample) ≡ Some 9 }
    ensures at_root { verdict numbers sum_from_nought (with_line 10 (line.Repl 8 [] 9) sample) ≡ Some 10 }
    ensures left_side { verdict numbers sum_from_nought (with_line 10 (line.Repl 8 (1 ∷ []) 8) sample) ≡ Some 10 }
{}

/// An induction takes exactly one box for each generator, with exactly its constants and hypotheses, that is closed.
pub fn other_boxes_are_refused()
    ensures predicate { verdict numbers sum_from_nought (with_line 4
        (line.BoxLine (record { sort = number_sort; predicate = true } ∷ []) []) sample) ≡ Some 12 }
    ensures further_hypothesis { verdict numbers sum_from_nought (with_line 7 (line.BoxLine (number_part ∷ [])
        (sum_with premise ∷ coded_equation premise coded_nought ∷ [])) sample) ≡ Some 12 }
    ensures not_closed { verdict numbers sum_from_nought (with_line 11 (line.Refl coded_nought) sample) ≡ Some 12 }
    ensures one_left_out { verdict numbers sum_from_nought (with_line 12 (induction_by (7 ∷ [])) sample) ≡ Some 12 }
    ensures second_left_out { verdict numbers sum_from_nought (with_line 12 (induction_by (4 ∷ [])) sample) ≡ Some 12 }
    ensures one_too_many { verdict numbers sum_from_nought
        (with_line 12 (induction_by (4 ∷ 7 ∷ 7 ∷ [])) sample) ≡ Some 12 }
    ensures exchanged { verdict numbers sum_from_nought (with_line 12 (induction_by (7 ∷ 4 ∷ [])) sample) ≡ Some 12 }
{}

/// What stands in a closed box can't be named, nor can its hypotheses; and no box may be open at the end.
pub fn boxes_close()
    ensures lines { verdict numbers sum_from_nought (sample ++ (line.Inst 10 [] ∷ [])) ≡ Some 13 }
    ensures hypotheses { verdict numbers sum_from_nought (sample ++ (line.Hyp 7 1 ∷ [])) ≡ Some 13 }
    ensures again { verdict numbers sum_from_nought (sample ++ (line.Inst 12 [] ∷ [])) ≡ None }
    ensures nothing { verdict numbers sum_from_nought [] ≡ Some 1 }
    ensures not_closed { verdict numbers numbers_generated (line.BoxLine [] [] ∷ line.Axiom 1 ∷ []) ≡ Some 3 }
    ensures closed_last { verdict numbers numbers_generated
        (line.BoxLine [] [] ∷ line.Axiom 1 ∷ line.Done ∷ []) ≡ Some 4 }
    ensures no_result { verdict numbers numbers_generated (line.BoxLine [] [] ∷ line.Done ∷ []) ≡ Some 2 }
    ensures no_box { verdict numbers numbers_generated (line.Axiom 1 ∷ line.Done ∷ []) ≡ Some 2 }
{}

/// Statement zero is that of the truth values; sides are exchanged; rows have a sort exactly where they have one; and
/// terms whose equality is true are equal.
pub fn statements_and_rows()
    ensures zero { verdict numbers statement_zero (line.Axiom 0 ∷ []) ≡ None }
    ensures exchanged { verdict numbers (statement.Equation x_number (apply_two plus x_number (constant nought)))
        (line.Axiom 2 ∷ line.Sym 1 ∷ []) ≡ None }
    ensures no_sides { verdict numbers numbers_generated (line.Axiom 1 ∷ line.Sym 1 ∷ []) ≡ Some 2 }
    ensures equal { verdict numbers (statement.Equation (var (codes "a") number_sort) (var (codes "a") number_sort))
        (line.Row 24 (Some number_sort) ∷ line.Equal 1 ∷ []) ≡ None }
    ensures unknown_sort { verdict numbers (statement.Equation (var (codes "a") set_sort) (var (codes "a") set_sort))
        (line.Row 24 (Some set_sort) ∷ line.Equal 1 ∷ []) ≡ None }
    ensures not_true { verdict numbers numbers_generated (line.Row 34 (Some number_sort) ∷ line.Equal 1 ∷ []) ≡ Some 2 }
    ensures sort_missing { verdict numbers numbers_generated (line.Row 24 None ∷ []) ≡ Some 1 }
    ensures sort_superfluous { verdict numbers numbers_generated (line.Row 1 (Some bool_sort) ∷ []) ≡ Some 1 }
    ensures no_row { verdict numbers numbers_generated (line.Row 0 None ∷ []) ≡ Some 1 }
{}

/// Variables take the places of a box's constants where it supposes nothing; they may be equal. Cases are those of a
/// formula without variables.
pub fn variables_and_cases()
    ensures fresh { verdict numbers
        (statement.Equation (apply_two plus x_number x_number) (apply_two plus x_number x_number)) (sums_are_equal [])
        ≡ None }
    ensures supposing { verdict numbers
        (statement.Equation (apply_two plus x_number x_number) (apply_two plus x_number x_number))
        (sums_are_equal (coded_equation coded_nought coded_nought ∷ [])) ≡ Some 4 }
    ensures one_variable { verdict numbers sum_from_nought
        (with_line 4 (line.Fresh 1 (coded_x ∷ [])) (sums_are_equal [])) ≡ Some 4 }
    ensures predicate { verdict numbers sum_from_nought (line.BoxLine (predicate_part ∷ []) []
        ∷ line.Refl coded_nought ∷ line.Done ∷ line.Fresh 1 (coded_x ∷ []) ∷ []) ≡ Some 4 }
    ensures cases { verdict numbers (statement.Equation (constant nought) (constant nought))
        (by_cases_of coded_truth) ≡ None }
    ensures with_variable { verdict numbers (statement.Equation (constant nought) (constant nought))
        (by_cases_of (coded_var (codes "x") bool_sort)) ≡ Some 7 }
    ensures one_case { verdict numbers (statement.Equation (constant nought) (constant nought))
        (with_line 7 (line.Cases 1 1) (by_cases_of coded_truth)) ≡ Some 7 }
{}

/// A generation clause is shown by a predicate that the values of exactly its operators inherit.
pub fn generation_is_shown()
    ensures generated { verdict numbers numbers_generated (numbers_generated_by (1 ∷ 2 ∷ [])) ≡ None }
    ensures one_left_out { verdict numbers numbers_generated (numbers_generated_by (1 ∷ [])) ≡ Some 19 }
    ensures other_range { verdict numbers numbers_generated
        (with_line 19 (line.Generated 1 bool_sort (1 ∷ 2 ∷ [])) (numbers_generated_by [])) ≡ Some 19 }
{}

/// Terms of a partitioned sort are equal that all observers show to be so, by variables that don't occur in them. A
/// partition clause is shown of two constants, with the variables that are named by their places.
pub fn partition_is_used_and_shown()
    ensures observed { verdict sets
        (statement.Equation (constant (set_named (codes "a"))) (constant (set_named (codes "b"))))
        (same_sets_by (2 ∷ [])) ≡ None }
    ensures unobserved { verdict sets
        (statement.Equation (constant (set_named (codes "a"))) (constant (set_named (codes "b"))))
        (same_sets_by []) ≡ Some 3 }
    ensures variable_occurs { verdict sets
        (statement.Equation (apply_one (set_of (codes "f")) (var (codes "x") element_sort))
        (apply_one (set_of (codes "g")) (var (codes "x") element_sort)))
        (same_sets_of (codes "x")) ≡ Some 3 }
    ensures partitioned { verdict sets sets_partitioned (partition_with (codes "x1")) ≡ None }
    ensures other_variable { verdict sets sets_partitioned (partition_with (codes "x2")) ≡ Some 6 }
{}
