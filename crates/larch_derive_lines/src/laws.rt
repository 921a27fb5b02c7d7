//! What holds of known terms and of ways, for crates above to cite. No function here does anything.
ghost use Rattle.std.specs.Prelude.{ℕ, List, Option};
ghost use Rattle.larch_term.specs.Substitution.{instance_of};
ghost use Rattle.larch_term.specs.Tree.{Tree};
ghost use Rattle.larch_term.specs.declared.substitution.Entry.{Entry};
ghost use Rattle.larch_derive.specs.Predicates.{Extends, Known};
ghost use Rattle.larch_derive.specs.declared.builder.Builder.{Builder};
ghost use Rattle.larch_derive_lines.specs.Rules.{AreKnownEntries};
ghost use Rattle.larch_derive_lines.specs.Way.{Leads};

/// A known term is known with known terms in the places of its variables.
pub fn substituting()
    ensures { (a : Builder) (es : List Entry) (t : Tree) → Known a t → AreKnownEntries a es
        → Known a (instance_of es t) }
{}

/// A way leads on when lines are added, and what a way leads to from a known term is known.
pub fn ways_stay()
    ensures leads { (a b : Builder) (way : Option ℕ) (s t : Tree) → Extends a b → Leads a way s t → Leads b way s t }
    ensures known { (a : Builder) (way : Option ℕ) (s t : Tree) → Known a s → Leads a way s t → Known a t }
{}
