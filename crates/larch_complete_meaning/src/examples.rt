//! Completions worked out, as the definitions compute them. No function here does anything.
ghost use Rattle.std.specs.Prelude.{◌≡◌, [], ◌∷◌};
ghost use Rattle.larch_calculus.specs.Formula.{falsity};
ghost use Rattle.larch_complete_meaning.specs.Completion.{complete};
ghost use Rattle.larch_complete_meaning.specs.Examples.{
  clauses_alone,
  contradicts,
  exchanges,
  f,
  g,
  growing,
  growing_rule,
  m,
  n,
  rule,
  sum,
  the_same_often,
  twice,
  twice_below,
  v1,
  x,
  zero_is,
};
ghost use Rattle.larch_complete_meaning.specs.declared.answer.CompletionAnswer.TheVariants.{
  Complete,
  Limit,
  Spent,
  TooLarge,
  Unoriented,
};
ghost use Rattle.larch_term.specs.Truth.{truth};
ghost use Rattle.larch_term.specs.declared.statement.Statement.TheVariants.{Equation};

/// f(f(x)) == g(x): the rule overlaps with itself, and f(g(v1)) == g(f(v1)) makes another one. Then all pairs join.
pub fn a_rule_comes_of_a_pair()
    ensures { complete twice 1000 ≡ record {
      answer = Complete;
      rules = rule (f (f x)) (g x) ∷ rule (f (g v1)) (g (f v1)) ∷ [];
    } }
{}

/// Where g is above f, the rule goes the other way, and overlaps with nothing.
pub fn the_order_of_operators_counts()
    ensures { complete twice_below 1000 ≡ record { answer = Complete; rules = rule (g x) (f (f x)) ∷ [] } }
{}

/// Neither side of x + y == y + x is greater.
pub fn an_equation_is_not_oriented()
    ensures { complete exchanges 1000 ≡ record { answer = Unoriented (Equation (sum m n) (sum n m)); rules = [] } }
{}

/// A contradiction makes a rule like any other equation: what is both true and false makes one from false to true.
pub fn a_contradiction_is_a_rule()
    ensures { complete contradicts 1000 ≡ record {
      answer = Complete;
      rules = rule (zero_is m) truth ∷ rule falsity truth ∷ [];
    } }
{}

/// Clauses aren't used.
pub fn clauses_are_left_out()
    ensures { complete clauses_alone 1000 ≡ record { answer = Complete; rules = [] } }
{}

/// Both sides of an equation share one budget, also in the last test.
pub fn a_budget_is_for_both_sides()
    ensures { complete twice 1 ≡ record {
      answer = Limit;
      rules = rule (f (f x)) (g x) ∷ rule (f (g v1)) (g (f v1)) ∷ [];
    } }
{}

/// The event counts that comes first, with the rules so far: f(f(f(0))) would have more than 5,000 nodes.
pub fn a_term_is_too_large()
    ensures { complete growing 1000 ≡ record { answer = TooLarge; rules = growing_rule ∷ [] } }
{}

/// Every equation that is taken counts, also one that is dropped: the last of 200 is taken, and one more isn't.
pub fn equations_are_counted()
    ensures last { complete (the_same_often 200) 1000 ≡ record { answer = Complete; rules = [] } }
    ensures more { complete (the_same_often 201) 1000 ≡ record { answer = Spent; rules = [] } }
{}
