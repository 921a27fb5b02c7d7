//! What holds of all that shorthands stand for, for crates above to cite. No function here does anything.
ghost use Rattle.std.specs.Prelude.{◌≡◌, All, Ok};
ghost use Rattle.larch_traits_items.specs.RawWorded.{WordedShorthand};
ghost use Rattle.larch_traits_items.specs.RawShorthandRawShorthand.{RawShorthand};
ghost use Rattle.larch_term.specs.BuiltIn.{IsBuiltIn};
ghost use Rattle.larch_term.specs.Statement.{IsStatementOver};
ghost use Rattle.larch_traits_items.specs.SortsMeaningLaws.{IsSortOf, StatementSorts};
ghost use Rattle.larch_traits_items.specs.Laws.{NamesOwn};
ghost use Rattle.larch_shorthand.specs.Shorthand.{expand};
ghost use Rattle.larch_shorthand.specs.declared.expansion.Expansion.{Expansion};

/// What a shorthand states is well sorted over its own operators, its clauses name these alone, and each sort in it is
/// Bool or stands in one of them.
pub fn expanded_is_stated()
    ensures { (s : RawShorthand) (e : Expansion) → expand s ≡ Ok e
        → All (λ t. IsStatementOver e.operators t × NamesOwn e.operators t × StatementSorts (IsSortOf e.operators) t)
        e.statements }
{}

/// No operator of a shorthand that is written with words is built in.
pub fn expanded_is_own()
    ensures { (s : RawShorthand) (e : Expansion) → WordedShorthand s → expand s ≡ Ok e
        → All (λ f. IsBuiltIn f → ⊥) e.operators }
{}
