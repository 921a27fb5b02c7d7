//! What is told of completions, worked out. No function here does anything.
ghost use Rattle.std.specs.Prelude.{◌≡◌, ◌++◌, codes, false, true};
ghost use Rattle.larch_complete_answer.specs.Told.{completion_told};
ghost use Rattle.larch_complete_meaning.specs.Examples.{clauses_alone, exchanges, the_same_often, twice};

/// The rules of f(f(x)) == g(x), where f is above g; and none, where there is no equation.
pub fn a_completion_is_told()
    ensures two { completion_told twice 1000 ≡ record {
      text = codes "complete 2 rules\nR1 f(f(x)) -> g(x)\nR2 f(g(v1)) -> g(f(v1))\nend\n";
      complete = true;
    } }
    ensures none { completion_told clauses_alone 1000 ≡ record {
      text = codes "complete 0 rules\nend\n";
      complete = true;
    } }
{}

/// An equation that isn't oriented, a budget that is too small, and equations that are too many.
pub fn an_end_is_told()
    ensures unoriented { completion_told exchanges 1000 ≡ record {
      text = codes "unoriented x + y == y + x\n";
      complete = false;
    } }
    ensures limit { completion_told twice 1 ≡ record { text = codes "LIMIT\n"; complete = false } }
    ensures spent { completion_told (the_same_often 201) 1000 ≡ record { text = codes "spent\n"; complete = false } }
{}
