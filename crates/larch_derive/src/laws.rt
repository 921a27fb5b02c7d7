//! What holds of builders, for crates above to cite. No function here does anything.
ghost use Rattle.std.specs.Prelude.{◌≡◌, ℕ, false, List, [], Some, length};
ghost use Rattle.larch_certificate_text.specs.CertificateCoded.{CodedTree};
ghost use Rattle.larch_certificate_text.specs.CertificateLineLine.{Line};
ghost use Rattle.larch_certificate_text.specs.CertificateLineLine.TheVariants.{Refl, Sym, Repl};
ghost use Rattle.larch_certificate_text.specs.CertificateText.{Writable};
ghost use Rattle.larch_certificate_text.specs.LineText.{IsWord};
ghost use Rattle.larch_term.specs.Place.{at, put};
ghost use Rattle.larch_derive.specs.Builder.{IsEmpty, IsPushed, IsCodeIn, theory_in, lines_in, boxes_in};
ghost use Rattle.larch_verify_meaning.specs.CalculusRenaming.{HasPlainNames};
ghost use Rattle.larch_verify_meaning.specs.Acceptance.{Accepts};
ghost use Rattle.larch_verify_meaning.specs.LastLine.{states_clause, EndsWithoutStatedClause};
ghost use Rattle.larch_term.specs.Sorts.{sort_of, IsTermOver};
ghost use Rattle.larch_term.specs.declared.statement.Theory.{Theory};
ghost use Rattle.larch_term.specs.Tree.{Tree};
ghost use Rattle.larch_term.specs.declared.statement.Statement.{Statement};
ghost use Rattle.larch_term.specs.declared.statement.Statement.TheVariants.{Equation};
ghost use Rattle.larch_derive.specs.declared.builder.Builder.{Builder};
ghost use Rattle.larch_derive.specs.Finished.{IsFinished};
ghost use Rattle.larch_derive.specs.Predicates.{HasNoBadLine, Known, HasStatement, HasEquation, Extends, Grows};
ghost use Rattle.larch_derive.specs.Words.{IsWordedTerm, IsWordedStatement, IsWordedTheory};

/// A builder extends itself, and what extends one that extends it.
pub fn extending()
    ensures same { (a b : Builder) → b ≡ a → Extends a b }
    ensures further { (a b c : Builder) → Extends a b → Extends b c → Extends a c }
{}

/// So it is with growth, and what extends a builder grows from it.
pub fn growing()
    ensures same { (a b : Builder) → b ≡ a → Grows a b }
    ensures further { (a b c : Builder) → Grows a b → Grows b c → Grows a c }
    ensures extended { (a b : Builder) → Extends a b → Grows a b }
    ensures alike { (a b : Builder) → Grows a b → (theory_in b ≡ theory_in a) × (boxes_in b ≡ boxes_in a) }
{}

/// What was said stays said, what was known stays known, and no line turns bad.
pub fn saying_stays()
    ensures said { (a b : Builder) (n : ℕ) (s : Statement) → Grows a b → HasStatement a n s → HasStatement b n s }
    ensures known { (a b : Builder) (t : Tree) → Grows a b → Known a t → Known b t }
    ensures stands { (a b : Builder) → Grows a b → HasNoBadLine a → HasNoBadLine b }
    ensures said_still { (a b : Builder) (n : ℕ) (s : Statement) → Extends a b → HasStatement a n s
        → HasStatement b n s }
    ensures known_still { (a b : Builder) (t : Tree) → Extends a b → Known a t → Known b t }
{}

/// The sides of an equation that a line says are known.
pub fn sides_are_known()
    ensures left { (a : Builder) (n : ℕ) (l r : Tree) → HasEquation a n l r → Known a l }
    ensures right { (a : Builder) (n : ℕ) (l r : Tree) → HasEquation a n l r → Known a r }
    ensures known { (a : Builder) (t : Tree) → Known a t → HasNoBadLine a }
    ensures said { (a : Builder) (n : ℕ) (s : Statement) → HasStatement a n s → HasNoBadLine a }
{}

/// A line that says that a known term equals itself.
pub fn reflecting()
    ensures says { (a b : Builder) (t : Tree) (c : CodedTree) (n : ℕ) → IsCodeIn a t c → IsPushed a b (Refl c) n
        → Known a t → HasEquation b n t t }
    ensures extends { (a b : Builder) (t : Tree) (c : CodedTree) (n : ℕ) → IsCodeIn a t c → IsPushed a b (Refl c) n
        → Known a t → Extends a b }
{}

/// A line that says an equation with its sides exchanged.
pub fn exchanging()
    ensures says { (a b : Builder) (m n : ℕ) (l r : Tree) → IsPushed a b (Sym m) n → HasEquation a m l r
        → HasEquation b n r l }
    ensures extends { (a b : Builder) (m n : ℕ) (l r : Tree) → IsPushed a b (Sym m) n → HasEquation a m l r
        → Extends a b }
{}

/// A line that says an equation whose right side is changed by another equation, at a place or as a whole.
pub fn replacing()
    ensures says { (a b : Builder) (m k n : ℕ) (q : List ℕ) (l r u v : Tree) → IsPushed a b (Repl m q k) n
        → HasEquation a m l r → HasEquation a k u v → at r q ≡ Some u → HasEquation b n l (put r q v) }
    ensures extends { (a b : Builder) (m k n : ℕ) (q : List ℕ) (l r u v : Tree) → IsPushed a b (Repl m q k) n
        → HasEquation a m l r → HasEquation a k u v → at r q ≡ Some u → Extends a b }
    ensures whole_says { (a b : Builder) (m k n : ℕ) (l r v : Tree) → IsPushed a b (Repl m [] k) n
        → HasEquation a m l r → HasEquation a k r v → HasEquation b n l v }
    ensures whole_extends { (a b : Builder) (m k n : ℕ) (l r v : Tree) → IsPushed a b (Repl m [] k) n
        → HasEquation a m l r → HasEquation a k r v → Extends a b }
{}

/// A builder without lines stands where the theory is in words and none of its operators has the name of a box's
/// constant, and no operator of the code has one. A term over the theory in words is known where no line is bad.
pub fn beginning()
    ensures stands { (t : Theory) (b : Builder) → IsEmpty t b → HasPlainNames t → IsWordedTheory t → HasNoBadLine b }
    ensures known { (b : Builder) (a : Tree) → HasNoBadLine b → IsTermOver (theory_in b).operators a → IsWordedTerm a
        → Known b a }
{}

/// What is known, what lines say and the theory are in words.
pub fn words()
    ensures theory { (b : Builder) → HasNoBadLine b → IsWordedTheory (theory_in b) }
    ensures known { (b : Builder) (t : Tree) → Known b t → IsWordedTerm t }
    ensures sort { (b : Builder) (t : Tree) → Known b t → IsWord (sort_of t) }
    ensures said { (b : Builder) (n : ℕ) (s : Statement) → HasStatement b n s → IsWordedStatement s }
{}

/// Where no line is bad, the lines have a text.
pub fn writing()
    ensures { (b : Builder) → HasNoBadLine b → Writable (lines_in b) }
{}

/// Where no box is open, the lines are a certificate that is accepted for what the last of them says.
pub fn accepting()
    ensures { (b : Builder) (n : ℕ) (s : Statement) → HasStatement b n s → boxes_in b ≡ [] → n ≡ length (lines_in b)
        → Accepts (theory_in b) s (lines_in b) }
{}

/// The last line isn't an axiom line of a clause where it says an equation, and where it was pushed as another line. A
/// pushed line is the last.
pub fn ending()
    ensures equation { (b : Builder) (n : ℕ) (l r : Tree) → HasEquation b n l r → n ≡ length (lines_in b)
        → EndsWithoutStatedClause (theory_in b) (lines_in b) }
    ensures pushed { (a b : Builder) (line : Line) (n : ℕ) → IsPushed a b line n
        → states_clause (theory_in a) line ≡ false → EndsWithoutStatedClause (theory_in b) (lines_in b) }
    ensures last { (a b : Builder) (line : Line) (n : ℕ) → IsPushed a b line n → n ≡ length (lines_in b) }
{}

/// Where no box is open, the lines are a certificate that can be handed over for what the last of them says: for an
/// equation, and for a clause that isn't said as a statement of the theory.
pub fn finishing()
    ensures equation { (b : Builder) (n : ℕ) (l r : Tree) → HasEquation b n l r → boxes_in b ≡ []
        → n ≡ length (lines_in b) → IsFinished (theory_in b) (Equation l r) (lines_in b) }
    ensures clause { (b : Builder) (n : ℕ) (s : Statement) → HasStatement b n s → boxes_in b ≡ []
        → n ≡ length (lines_in b) → EndsWithoutStatedClause (theory_in b) (lines_in b)
        → IsFinished (theory_in b) s (lines_in b) }
{}
