//! Normal forms, computed by the definition. No function here does anything.
ghost use Rattle.std.specs.Prelude.{◌≡◌, [], ◌∷◌};
ghost use Rattle.larch_term.specs.Truth.{truth};
ghost use Rattle.larch_tables.specs.CalculusExample.{number_sort, plus, x_number};
ghost use Rattle.larch_tables.specs.CalculusFormula.{conjunction, equality, falsity, inequality, apply_two, negation};
ghost use Rattle.larch_rewrite_meaning.specs.Examples.{
  a,
  anything,
  b,
  both_ways,
  exploding,
  grown,
  next,
  one_and_one,
  p,
  rule,
  sums,
  zero_term,
};
ghost use Rattle.larch_rewrite_meaning.specs.NormalForm.{normal};
ghost use Rattle.larch_rewrite_meaning.specs.Work.{Made, OverLimit, OverSize};

/// One and one is two, by two applications: the budget may be used up.
pub fn a_budget_is_used_up()
    ensures { normal sums one_and_one 2 ≡ Made (next (next zero_term)) 0 }
{}

/// One less is too little.
pub fn a_budget_is_too_small()
    ensures { normal sums one_and_one 1 ≡ OverLimit }
{}

/// What isn't used is left, and a term that no rule matches is its own normal form.
pub fn nothing_to_do()
    ensures { normal sums (next x_number) 7 ≡ Made (next x_number) 7 }
{}

/// An equality on the left of a rule is tried with its sides exchanged, right behind itself.
pub fn an_equality_is_exchanged()
    ensures { normal both_ways (equality number_sort b a) 1 ≡ Made truth 0 }
{}

/// The built-in rows come before the rules.
pub fn rows_come_first()
    ensures { normal (rule (conjunction truth p) falsity ∷ []) (conjunction truth p) 1 ≡ Made p 0 }
{}

/// A row at every sort is tried at the sort of its operator: that numbers are unequal is that they aren't equal.
pub fn rows_have_a_sort()
    ensures { normal [] (inequality number_sort a b) 1 ≡ Made (negation (equality number_sort a b)) 0 }
{}

/// A rule may have a variable on its left side; it matches terms of the variable's sort alone.
pub fn a_variable_matches_its_sort()
    ensures matched { normal anything a 1 ≡ OverLimit }
    ensures other { normal anything (negation p) 1 ≡ Made (negation p) 1 }
{}

/// A term with more than 5,000 nodes is too large as a start.
pub fn a_start_is_too_large()
    ensures { normal [] (grown 12) 0 ≡ OverSize }
{}

/// A term that an application forms is too large only where there is something left to apply the rule with.
pub fn an_application_is_too_large()
    ensures limit { normal exploding (next zero_term) 0 ≡ OverLimit }
    ensures size { normal exploding (next zero_term) 1 ≡ OverSize }
{}

/// Arguments are normalised from left to right: the event of the left one counts.
pub fn the_left_argument_comes_first()
    ensures { normal exploding (apply_two plus (next zero_term) (next zero_term)) 1 ≡ OverSize }
{}
