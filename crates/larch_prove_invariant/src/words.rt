//! Laws on words: that what commands read as can be written. No function here does anything.
ghost use Rattle.std.specs.Prelude.{◌≡◌, ℕ, List, All, Ok};
ghost use Rattle.larch_derive.specs.Words.{IsWordedStatement, IsWordedTerm, IsWordedTheory};
ghost use Rattle.larch_derive.specs.declared.builder.Builder.{Builder};
ghost use Rattle.larch_methods.specs.RawEquationRawEquation.{RawEquation};
ghost use Rattle.larch_methods.specs.RewriteMeaningSides.{Sides};
ghost use Rattle.larch_methods.specs.SortsMeaningLaws.{OperatorSorts};
ghost use Rattle.larch_term.specs.Tree.{Tree};
ghost use Rattle.larch_term.specs.declared.statement.Statement.{Statement};
ghost use Rattle.larch_term.specs.declared.statement.Theory.{Theory};
ghost use Rattle.larch_methods.specs.BaseMeaningWord.{IsWord};
ghost use Rattle.larch_methods.specs.ProveMeaningInWords.{AreVariablesInWords, IsStatementInWords, IsTermInWords};
ghost use Rattle.larch_methods.specs.ProveMeaningLevels.{Proof};
ghost use Rattle.larch_methods.specs.ProveMeaningSteps.{read_lone, read_sides};
ghost use Rattle.larch_prove_invariant.specs.Book.{Kept};
ghost use Rattle.larch_prove_invariant.specs.Holding.{HoldsProof};

/// What is in words to traits and their duties is so to certificates.
pub fn words_are_words()
    ensures term { (t : Tree) → IsTermInWords t → IsWordedTerm t }
    ensures statement { (s : Statement) → IsStatementInWords s → IsWordedStatement s }
    ensures theory { (t : Theory) → All (OperatorSorts IsWord) t.operators → All IsStatementInWords t.statements
        → IsWordedTheory t }
{}

/// What an equation, a formula or a term of a command reads as is in words, where a builder holds the proof and the
/// variables in scope are words: so it can be written, once the boxes of its constants are open.
pub fn what_commands_read_is_in_words()
    ensures equation { (s : Statement) (b : Builder) (p : Proof) (ks : List Kept) (raw : RawEquation) (e : Sides)
        → HoldsProof s b p ks → AreVariablesInWords p.scope → read_sides p raw ≡ Ok e
        → IsWordedTerm e.left × IsWordedTerm e.right }
    ensures term { (s : Statement) (b : Builder) (p : Proof) (ks : List Kept) (z : List ℕ) (raw : RawEquation)
        (t : Tree) → HoldsProof s b p ks → AreVariablesInWords p.scope → read_lone p z raw ≡ Ok t → IsWordedTerm t }
{}
