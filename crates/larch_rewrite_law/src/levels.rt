//! How the work on a normal form goes on, for crates above to cite. No function here does anything.
ghost use Rattle.std.specs.Prelude.{◌≡◌, ◌∷◌, ◌++◌, ◌+◌, [], true, false, ℕ, List, Some, None};
ghost use Rattle.larch_term.specs.Operator.{PlainOperator};
ghost use Rattle.larch_term.specs.Tree.{Tree, var, app, forest_of};
ghost use Rattle.larch_rewrite_meaning.specs.NormalForm.{normal};
ghost use Rattle.larch_rewrite_meaning.specs.Rewriting.{rewritten_once};
ghost use Rattle.larch_rewrite_meaning.specs.Sides.{Sides};
ghost use Rattle.larch_rewrite_meaning.specs.Work.{Made, OverLimit, OverSize, is_large};
ghost use Rattle.larch_rewrite_law.specs.Levels.{root_work, arguments_work};

/// The work on a term begins with its arguments; a variable has none. A term that is too large isn't begun.
pub fn terms_begin()
    ensures large { (rules : List Sides) (t : Tree) (b : ℕ) → is_large t ≡ true → normal rules t b ≡ OverSize }
    ensures variable { (rules : List Sides) (n s : List ℕ) (b : ℕ)
        → normal rules (var n s) b ≡ root_work rules (var n s) b }
    ensures application { (rules : List Sides) (f : PlainOperator) (ts : List Tree) (b : ℕ)
        → is_large (app f (forest_of ts)) ≡ false
        → normal rules (app f (forest_of ts)) b ≡ arguments_work rules f [] ts b }
{}

/// When an argument is normal, the work goes on with the further ones and what is left of the budget; an event in an
/// argument is the event of the whole. When all are normal, the work goes on at the root.
pub fn arguments_go_on()
    ensures made { (rules : List Sides) (f : PlainOperator) (done ts : List Tree) (t u : Tree) (b r : ℕ)
        → normal rules t b ≡ Made u r
        → arguments_work rules f done (t ∷ ts) b ≡ arguments_work rules f (done ++ u ∷ []) ts r }
    ensures limit { (rules : List Sides) (f : PlainOperator) (done ts : List Tree) (t : Tree) (b : ℕ)
        → normal rules t b ≡ OverLimit → arguments_work rules f done (t ∷ ts) b ≡ OverLimit }
    ensures size { (rules : List Sides) (f : PlainOperator) (done ts : List Tree) (t : Tree) (b : ℕ)
        → normal rules t b ≡ OverSize → arguments_work rules f done (t ∷ ts) b ≡ OverSize }
    ensures ended { (rules : List Sides) (f : PlainOperator) (done : List Tree) (b : ℕ)
        → arguments_work rules f done [] b ≡ root_work rules (app f (forest_of done)) b }
{}

/// At the root, a term that is too large is an event; a term that no rule applies to is the form; else one is taken
/// from the budget, and the work goes on with what the first rule makes.
pub fn roots_go_on()
    ensures large { (rules : List Sides) (t : Tree) (b : ℕ) → is_large t ≡ true → root_work rules t b ≡ OverSize }
    ensures normal { (rules : List Sides) (t : Tree) (b : ℕ) → is_large t ≡ false → rewritten_once rules t ≡ None
        → root_work rules t b ≡ Made t b }
    ensures limit { (rules : List Sides) (t u : Tree) → is_large t ≡ false → rewritten_once rules t ≡ Some u
        → root_work rules t 0 ≡ OverLimit }
    ensures made { (rules : List Sides) (t u : Tree) (b : ℕ) → is_large t ≡ false → rewritten_once rules t ≡ Some u
        → root_work rules t (b + 1) ≡ normal rules u b }
{}
