//! What holds of the costs of normal forms, for crates above to cite. No function here does anything.
ghost use Rattle.std.specs.Prelude.{◌≡◌, ◌≤◌, ◌<◌, ◌-◌, ◌+◌, ℕ, List};
ghost use Rattle.larch_term.specs.Tree.{Tree};
ghost use Rattle.larch_rewrite_meaning.specs.NormalForm.{normal};
ghost use Rattle.larch_rewrite_meaning.specs.Sides.{Sides};
ghost use Rattle.larch_rewrite_meaning.specs.Work.{Made, OverLimit};
ghost use Rattle.larch_rewrite_law.specs.Costs.{HasCost};

/// A normal form that was once made under a budget costs what that budget had more than was left of it.
pub fn made_at_a_cost()
    ensures { (rules : List Sides) (t u : Tree) (b r : ℕ) → normal rules t b ≡ Made u r
        → (r ≤ b) × HasCost rules t u (b - r) }
{}

/// A normal form charges its whole cost: under a budget that has it, it is made and the rest is left; under a smaller
/// one the budget is used up, and no term gets too large before that.
pub fn costs_are_charged()
    ensures made { (rules : List Sides) (t u : Tree) (k b : ℕ) → HasCost rules t u k → k ≤ b
        → normal rules t b ≡ Made u (b - k) }
    ensures used_up { (rules : List Sides) (t u : Tree) (k b : ℕ) → HasCost rules t u k → b < k
        → normal rules t b ≡ OverLimit }
{}
