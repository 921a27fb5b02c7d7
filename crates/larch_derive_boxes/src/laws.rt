//! What holds of boxes, for crates above to cite. No function here does anything.
ghost use Rattle.std.specs.Prelude.{◌≡◌, ℕ, List, [], ◌∷◌, ◌++◌, All, Contains};
ghost use Rattle.larch_term.specs.Operator.{PlainOperator};
ghost use Rattle.larch_term.specs.BuiltIn.{bool_sort};
ghost use Rattle.larch_term.specs.Sorts.{sort_of, IsTermOver};
ghost use Rattle.larch_term.specs.Statement.{IsStatementOver};
ghost use Rattle.larch_term.specs.Substitution.{instance_of};
ghost use Rattle.larch_term.specs.Tree.{Tree, app, none};
ghost use Rattle.larch_term.specs.declared.statement.Statement.{Statement};
ghost use Rattle.larch_term.specs.declared.statement.Statement.TheVariants.{Equation, Generated, Partitioned};
ghost use Rattle.larch_term.specs.declared.substitution.Entry.{Entry};
ghost use Rattle.larch_verify_law.specs.CalculusFormula.{constant};
ghost use Rattle.larch_verify_law.specs.CalculusGeneration.{place_name, induction_hypotheses, generation_hypotheses};
ghost use Rattle.larch_verify_law.specs.CalculusObservation.{observations};
ghost use Rattle.larch_verify_law.specs.CalculusTheories.{AreConstants};
ghost use Rattle.larch_derive.specs.Builder.{IsOpened, theory_in, boxes_in};
ghost use Rattle.larch_derive.specs.Predicates.{AreOthers, HasNoBadLine, Known, HasStatement, Grows};
ghost use Rattle.larch_derive.specs.Words.{AreWordedOperators, IsWordedTerm, IsWordedStatement};
ghost use Rattle.larch_derive.specs.declared.builder.Builder.{Builder};
ghost use Rattle.larch_derive.specs.declared.open_box.OpenBox.{OpenBox};
ghost use Rattle.larch_derive_boxes.specs.Boxes.{IsEquation, IsPart, KnownInside, AreKnownInside, MaySuppose, Opens};
ghost use Rattle.larch_derive_boxes.specs.Boxes.{IsOpen, HasResult, Closes};

/// A box line opens a box where its constants are neither the theory's nor built in and their sorts are words, and its
/// hypotheses may be supposed.
pub fn opening()
    ensures opens { (a b : Builder) (n : ℕ) (cs : List PlainOperator) (hs : List Statement) → IsOpened a b cs hs n
        → HasNoBadLine a → AreOthers (theory_in a) cs → All (MaySuppose a (record { number = n; constants = cs })) hs
        → AreWordedOperators cs
        → Opens a b (record { number = n; constants = cs }) hs }
    ensures equation { (a : Builder) (x : OpenBox) (l r : Tree) → AreOthers (theory_in a) x.constants → Known a l
        → Known a r → sort_of l ≡ sort_of r → MaySuppose a x (Equation l r) }
{}

/// A term can be written in a box once that is open if it could be before; if it is in words and has the theory's
/// operators and what stands for the box's own constants and predicates; and with such terms in the places of its
/// variables. Inside, it is known.
pub fn known_inside()
    ensures outside { (a : Builder) (x : OpenBox) (t : Tree) → AreOthers (theory_in a) x.constants → Known a t
        → KnownInside a x t }
    ensures own { (a : Builder) (x : OpenBox) (t : Tree) → HasNoBadLine a → AreOthers (theory_in a) x.constants
        → All IsPart x.constants → IsTermOver ((theory_in a).operators ++ x.constants) t → IsWordedTerm t
        → KnownInside a x t }
    ensures replaced { (a : Builder) (x : OpenBox) (es : List Entry) (t : Tree) → KnownInside a x t
        → AreKnownInside a x es → KnownInside a x (instance_of es t) }
    ensures opened { (a b : Builder) (x : OpenBox) (hs : List Statement) (t : Tree) → Opens a b x hs
        → KnownInside a x t → Known b t }
{}

/// Equations between such terms may be supposed: hypotheses may have the constants and predicates of their own box.
pub fn supposing_inside()
    ensures equation { (a : Builder) (x : OpenBox) (l r : Tree) → KnownInside a x l → KnownInside a x r
        → sort_of l ≡ sort_of r → MaySuppose a x (Equation l r) }
    ensures own { (a : Builder) (x : OpenBox) (s : Statement) → HasNoBadLine a → AreOthers (theory_in a) x.constants
        → All IsPart x.constants → IsEquation s → IsStatementOver ((theory_in a).operators ++ x.constants) s
        → IsWordedStatement s → MaySuppose a x s }
{}

/// So may the hypotheses of an induction, of generation and of partition.
pub fn supposing_cases()
    ensures induction { (a : Builder) (x : OpenBox) (v s : List ℕ) (l r : Tree) → AreOthers (theory_in a) x.constants
        → AreConstants x.constants → Known a l → Known a r → sort_of l ≡ sort_of r → AreWordedOperators x.constants
        → All (MaySuppose a x) (induction_hypotheses v s l r x.constants) }
    ensures generation { (a : Builder) (x : OpenBox) (p : PlainOperator) (s : List ℕ) (fs : List PlainOperator)
        → HasNoBadLine a → AreOthers (theory_in a) x.constants → x.constants ≡ p ∷ [] → p.domain ≡ s ∷ []
        → p.range ≡ bool_sort → IsStatementOver (theory_in a).operators (Generated s fs)
        → IsWordedStatement (Generated s fs) → All (MaySuppose a x) (generation_hypotheses p s fs) }
    ensures partition { (a : Builder) (x : OpenBox) (c d : PlainOperator) (s : List ℕ) (os : List PlainOperator)
        → HasNoBadLine a → AreOthers (theory_in a) x.constants → AreConstants x.constants → Contains x.constants c
        → Contains x.constants d → c.range ≡ s → d.range ≡ s
        → IsStatementOver (theory_in a).operators (Partitioned s os) → IsWordedStatement (Partitioned s os)
        → All (MaySuppose a x) (observations place_name s os (constant c) (constant d)) }
{}

/// What was said before a box was opened is said inside, and no line turns bad.
pub fn inside()
    ensures said { (a b : Builder) (x : OpenBox) (hs : List Statement) (n : ℕ) (s : Statement) → Opens a b x hs
        → HasStatement a n s → HasStatement b n s }
    ensures known { (a b : Builder) (x : OpenBox) (hs : List Statement) (t : Tree) → Opens a b x hs → Known a t
        → Known b t }
    ensures stands { (a b : Builder) (x : OpenBox) (hs : List Statement) → Opens a b x hs → HasNoBadLine b }
    ensures boxes { (a b : Builder) (x : OpenBox) (hs : List Statement) → Opens a b x hs
        → (theory_in b ≡ theory_in a) × (boxes_in b ≡ boxes_in a ++ x ∷ []) }
{}

/// The hypotheses of a box are there where it was opened, and stay there while it is open.
pub fn supposing()
    ensures opened { (a b : Builder) (x : OpenBox) (hs : List Statement) → Opens a b x hs → IsOpen b x hs }
    ensures grown { (a b : Builder) (x : OpenBox) (hs : List Statement) → Grows a b → IsOpen a x hs → IsOpen b x hs }
    ensures inside { (a b : Builder) (x y : OpenBox) (hs ks : List Statement) → Opens a b y ks → IsOpen a x hs
        → IsOpen b x hs }
{}

/// A box that is closed with an equation has it as its result, the builder has grown, and the result stays.
pub fn closing()
    ensures result { (a d : Builder) (x : OpenBox) (hs : List Statement) (l r : Tree) → Closes a d x hs l r
        → HasResult d x hs (Equation l r) }
    ensures grows { (a d : Builder) (x : OpenBox) (hs : List Statement) (l r : Tree) → Closes a d x hs l r → Grows a d }
    ensures stays { (a b : Builder) (x : OpenBox) (hs : List Statement) (s : Statement) → Grows a b → HasResult a x hs s
        → HasResult b x hs s }
{}

/// A constant of an open box is known.
pub fn knowing()
    ensures { (b : Builder) (x : OpenBox) (f : PlainOperator) → HasNoBadLine b → Contains (boxes_in b) x
        → Contains x.constants f
        → f.domain ≡ [] → Known b (app f none) }
{}
