//! What holds of the texts, for crates above to cite. No function here does anything.
ghost use Rattle.std.specs.Prelude.{◌≡◌, ◌<◌, ◌^◌, ◌∷◌, ◌++◌, [], ℕ, List, Bool, true, length, decimal};
ghost use Rattle.std.specs.Prelude.{Some, Ok, Err};
ghost use Rattle.std.specs.List.{join_with_byte};
ghost use Rattle.larch_certificate.specs.BaseWord.{is_word};
ghost use Rattle.larch_certificate.specs.Coded.{CodedTree, CodedForest, coded_app, coded_var, no_terms, term_then};
ghost use Rattle.larch_certificate.specs.declared.line.CodedEquation.{CodedEquation};
ghost use Rattle.larch_certificate.specs.declared.line.Line.{Line};
ghost use Rattle.larch_certificate.specs.declared.symbol.Symbol.{Symbol};
ghost use Rattle.larch_certificate_text.specs.ByteClasses.{Lacks};
ghost use Rattle.larch_certificate_text.specs.CertificateText.{certificate_text, read_certificate, Writable, IsRead};
ghost use Rattle.larch_certificate_text.specs.CertificateText.{FirstOutside, IsFirstOutside, IsTextOf};
ghost use Rattle.larch_certificate_text.specs.EquationText.{read_equation, equation_text, FitEquation};
ghost use Rattle.larch_certificate_text.specs.LineText.{line_text, read_line, FitLine};
ghost use Rattle.larch_certificate_text.specs.ListText.{split_at};
ghost use Rattle.larch_certificate_text.specs.Parts.{Each, IsSmall, read_number, read_ref, ref_text, cut_at};
ghost use Rattle.larch_certificate_text.specs.SymbolText.{read_leaf, symbol_text, FitSymbol};
ghost use Rattle.larch_certificate_text.specs.TermText.{term_text, FitTerm, run, fresh};
ghost use Rattle.larch_certificate_text.specs.declared.here.Here.{Here};

/// A number has one text.
pub fn number_has_one_text()
    ensures read { (ds : List ℕ) (n : ℕ) → read_number ds ≡ Some n → (ds ≡ decimal n) × IsSmall n }
    ensures again { (n : ℕ) → IsSmall n → read_number (decimal n) ≡ Some n }
{}

/// A line that is named has one text.
pub fn name_of_a_line_has_one_text()
    ensures read { (h : Here) (text : List ℕ) (m : ℕ) → IsSmall h.line → read_ref h text ≡ Some m
        → (text ≡ ref_text h m) × IsSmall m }
    ensures again { (h : Here) (m : ℕ) → IsSmall h.line → IsSmall m → read_ref h (ref_text h m) ≡ Some m }
    ensures cut { (c : ℕ) (text xs ys : List ℕ) → cut_at c text ≡ Some (xs, ys) → text ≡ xs ++ (c ∷ ys) }
{}

/// A leaf has one text.
pub fn leaf_has_one_text()
    ensures read { (h : Here) (text : List ℕ) (t : CodedTree) → IsSmall h.line → read_leaf h text ≡ Some t
        → (text ≡ term_text h t) × FitTerm t }
    ensures again { (h : Here) (f : Symbol) → IsSmall h.line → FitSymbol f
        → read_leaf h (symbol_text h f) ≡ Some (coded_app f no_terms) }
    ensures variable { (h : Here) (n s : List ℕ) → is_word n ≡ true → is_word s ≡ true
        → read_leaf h (n ++ (58 ∷ s)) ≡ Some (coded_var n s) }
{}

/// What is written of a term with arguments is read again, with what stands behind it; what is read is written so.
pub fn term_has_one_text()
    ensures read { (h : Here) (text : List ℕ) (t : CodedTree) (rest : List ℕ) → IsSmall h.line
        → run h (fresh []) text ≡ Some (t, rest) → (text ≡ term_text h t ++ rest) × FitTerm t }
    ensures again { (h : Here) (f : Symbol) (t : CodedTree) (ts : CodedForest) (rest : List ℕ) → IsSmall h.line
        → FitTerm (coded_app f (term_then t ts))
        → run h (fresh []) (term_text h (coded_app f (term_then t ts)) ++ rest)
        ≡ Some (coded_app f (term_then t ts), rest) }
{}

/// An equation has one text, also where a side is a connective with an equality sign in it.
pub fn equation_has_one_text()
    ensures again { (h : Here) (e : CodedEquation) → IsSmall h.line → FitEquation e
        → read_equation h (equation_text h e) ≡ Some e }
    ensures read { (h : Here) (text : List ℕ) (e : CodedEquation) → IsSmall h.line → read_equation h text ≡ Some e
        → (text ≡ equation_text h e) × FitEquation e }
{}

/// Items without the separator in them are what stands between the separators.
pub fn list_is_split_again()
    ensures { (c : ℕ) (x : List ℕ) (xs : List (List ℕ)) → Each (Lacks c) (x ∷ xs)
        → split_at c (join_with_byte c (x ∷ xs)) ≡ x ∷ xs }
{}

/// A line has one text.
pub fn line_has_one_text()
    ensures again { (h : Here) (r : Line) → IsSmall h.line → FitLine r → read_line h (line_text h r) ≡ Some r }
    ensures back { (h : Here) (text : List ℕ) (r : Line) → IsSmall h.line → read_line h text ≡ Some r
        → (text ≡ line_text h r) × FitLine r }
    ensures bytes { (h : Here) (r : Line) → IsSmall h.line → FitLine r → Lacks 10 (line_text h r) }
{}

/// A writable certificate has one text in each version, and no text has two certificates, nor two versions.
pub fn certificate_has_one_text()
    ensures again { (either v : Bool) (rs : List Line) → IsRead either v → Writable rs
        → read_certificate either (certificate_text v rs) ≡ Ok (v, rs) }
    ensures back { (either : Bool) (text : List ℕ) (v : Bool) (rs : List Line) → length text < 2 ^ 63
        → read_certificate either text ≡ Ok (v, rs) → (text ≡ certificate_text v rs) × Writable rs }
    ensures one { (v w : Bool) (rs qs : List Line) → Writable rs → Writable qs
        → certificate_text v rs ≡ certificate_text w qs → (v ≡ w) × (rs ≡ qs) }
{}

/// A text is refused at its first line outside the grammar, it is then the text of no writable certificate, and
/// there is one first line outside the grammar.
pub fn refused_at_the_first_line_outside()
    ensures first { (either : Bool) (text : List ℕ) (k : ℕ) → length text < 2 ^ 63
        → read_certificate either text ≡ Err k → IsFirstOutside either text k }
    ensures none { (either : Bool) (text : List ℕ) (k : ℕ) (v : Bool) (rs : List Line)
        → read_certificate either text ≡ Err k → IsRead either v → IsTextOf text v rs → ⊥ }
    ensures one { (v : Bool) (n : ℕ) (xs : List (List ℕ)) (k m : ℕ) → FirstOutside v n xs k → FirstOutside v n xs m
        → k ≡ m }
{}
