//! What holds of what lines and boxes show, for crates above to cite. No function here does anything.
ghost use Rattle.std.specs.Prelude.{ℕ, List};
ghost use Rattle.larch_term.specs.Operator.{PlainOperator};
ghost use Rattle.larch_term.specs.Tree.{Tree};
ghost use Rattle.larch_derive_boxes.specs.CalculusObservation.{Observation};
ghost use Rattle.larch_certificate.specs.declared.line.CodedVar.{CodedVar};
ghost use Rattle.larch_derive_boxes.specs.DerivePredicates.{Grows};
ghost use Rattle.larch_derive_boxes.specs.DeriveBuilderBuilder.{Builder};
ghost use Rattle.larch_derive_clauses.specs.Showing.{ShowCases, ShowSame, ShowsGenerated, ShowsPartitioned};

/// What was shown is shown still where the builder has grown.
pub fn showing_stays()
    ensures cases { (a b : Builder) (v : CodedVar) (l r : Tree) (fs : List PlainOperator) (ns : List ℕ) → Grows a b
        → ShowCases a v l r fs ns → ShowCases b v l r fs ns }
    ensures same { (a b : Builder) (l r : Tree) (ws : List Observation) (ns : List ℕ) → Grows a b
        → ShowSame a l r ws ns → ShowSame b l r ws ns }
    ensures generated { (a b : Builder) (s : List ℕ) (fs : List PlainOperator) (n : ℕ) → Grows a b
        → ShowsGenerated a s fs n → ShowsGenerated b s fs n }
    ensures partitioned { (a b : Builder) (s : List ℕ) (os : List PlainOperator) (n : ℕ) → Grows a b
        → ShowsPartitioned a s os n → ShowsPartitioned b s os n }
{}
