//! What waits for a normal form, for crates above to cite. No function here does anything.
ghost use Rattle.std.specs.Prelude.{◌≡◌, ◌∷◌, ◌++◌, [], ℕ, List};
ghost use Rattle.larch_term.specs.Tree.{Tree};
ghost use Rattle.larch_rewrite_meaning.specs.NormalForm.{normal};
ghost use Rattle.larch_rewrite_meaning.specs.Sides.{Sides};
ghost use Rattle.larch_rewrite_meaning.specs.Work.{Made, OverLimit, OverSize};
ghost use Rattle.larch_rewrite_law.specs.Levels.{arguments_work};
ghost use Rattle.larch_rewrite_law.specs.Stacked.{Waiting, Wait};

/// An event in what is waited for is the event of the whole. A normal form is the next argument of what waited
/// innermost, or the form of the whole where nothing waits.
pub fn waiting_ends()
    ensures limit { (rules : List Sides) (whole t : Tree) (budget b : ℕ) (ws : List Waiting)
        → Wait rules whole budget ws t b → normal rules t b ≡ OverLimit → normal rules whole budget ≡ OverLimit }
    ensures size { (rules : List Sides) (whole t : Tree) (budget b : ℕ) (ws : List Waiting)
        → Wait rules whole budget ws t b → normal rules t b ≡ OverSize → normal rules whole budget ≡ OverSize }
    ensures argument { (rules : List Sides) (whole t u : Tree) (budget b r : ℕ) (w : Waiting) (ws : List Waiting)
        → Wait rules whole budget (w ∷ ws) t b → normal rules t b ≡ Made u r
        → normal rules w.start w.budget ≡ arguments_work rules w.operator (w.done ++ u ∷ []) w.further r }
    ensures form { (rules : List Sides) (whole t u : Tree) (budget b r : ℕ) → Wait rules whole budget [] t b
        → normal rules t b ≡ Made u r → normal rules whole budget ≡ Made u r }
{}
