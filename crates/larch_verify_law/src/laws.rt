//! What holds of all runs of lines, for crates above to cite. No function here does anything.
ghost use Rattle.std.specs.Prelude.{◌≡◌, ◌↔◌, ℕ, suc, ◌+◌, ◌≤◌, List, ◌∷◌, ◌++◌, length, map, Some, None};
ghost use Rattle.std.specs.Prelude.{option_and_then};
ghost use Rattle.larch_term.specs.Statement.{IsWellSortedTheory};
ghost use Rattle.larch_term.specs.declared.statement.Statement.{Statement};
ghost use Rattle.larch_term.specs.declared.statement.Theory.{Theory};
ghost use Rattle.larch_verify_meaning.specs.RenamingRenaming.{renamed_statement};
ghost use Rattle.larch_verify_meaning.specs.CalculusDerivable.{Derivable};
ghost use Rattle.larch_verify_meaning.specs.CalculusRenaming.{HasPlainNames};
ghost use Rattle.larch_verify_meaning.specs.CalculusTheories.{IsPrefix, extend};
ghost use Rattle.larch_certificate.specs.declared.line.Line.{Line};
ghost use Rattle.larch_verify_meaning.specs.Acceptance.{Accepts, verdict};
ghost use Rattle.larch_verify_meaning.specs.Context.{theory_of, find_line, find_closed};
ghost use Rattle.larch_verify_meaning.specs.Events.{PlainBox, operators_of, Event, Said, State, start};
ghost use Rattle.larch_verify_meaning.specs.Run.{judge, step, run, bad_from, first_bad};
ghost use Rattle.larch_verify_law.specs.Carrying.{IsMove, KeepsCited, NamesAlike, Matches, EndsAlike, Follows};
ghost use Rattle.larch_verify_law.specs.Carrying.{EachLine};
ghost use Rattle.larch_verify_law.specs.FirstBad.{IsFirstBad};
ghost use Rattle.larch_verify_law.specs.Moves.{Move, moved_line};

/// The law of the checker: over a theory whose statements are well sorted and whose operators have plain names, what a
/// certificate is accepted for is derivable, whoever wrote it.
pub fn accepted_is_derivable()
    ensures accepted { (t : Theory) (s : Statement) (lines : List Line) → IsWellSortedTheory t → HasPlainNames t
        → Accepts t s lines → Derivable t s }
    ensures verdict { (t : Theory) (s : Statement) (lines : List Line) → IsWellSortedTheory t → HasPlainNames t
        → verdict t s lines ≡ None → Derivable t s }
{}

/// At each point of a run the theory of the context is well sorted; what a line that can be named says is derivable
/// from it; and the result of a closed box that can be named is derivable with the box's operators and hypotheses
/// added.
pub fn lines_are_derivable()
    ensures context { (t : Theory) (lines : List Line) (last : State) → IsWellSortedTheory t → HasPlainNames t
        → run t start lines ≡ Some last → IsWellSortedTheory (theory_of t last.history) }
    ensures named { (t : Theory) (lines : List Line) (last : State) (m : ℕ) (s : Statement) → IsWellSortedTheory t
        → HasPlainNames t → run t start lines ≡ Some last → find_line last.history m ≡ Some s
        → Derivable (theory_of t last.history) s }
    ensures results { (t : Theory) (lines : List Line) (last : State) (m : ℕ) (c : PlainBox × Statement)
        → IsWellSortedTheory t → HasPlainNames t → run t start lines ≡ Some last
        → find_closed last.history m ≡ Some c
        → Derivable (extend (theory_of t last.history) (operators_of c.0) c.0.hypotheses) c.1 }
{}

/// The verdict is nothing exactly where the certificate is accepted. Else it is the number of the first bad line, or,
/// where no line is bad, the number behind that of the last one.
pub fn verdicts()
    ensures accepted { (t : Theory) (s : Statement) (lines : List Line)
        → (verdict t s lines ≡ None ↔ Accepts t s lines) }
    ensures bad { (t : Theory) (s : Statement) (lines : List Line) (n : ℕ) → first_bad t lines ≡ Some n
        → verdict t s lines ≡ Some n }
    ensures end { (t : Theory) (s : Statement) (lines : List Line) → first_bad t lines ≡ None
        → (Accepts t s lines → ⊥) → verdict t s lines ≡ Some (suc (length lines)) }
{}

/// A certificate is accepted for one statement at most.
pub fn one_statement()
    ensures { (t : Theory) (s r : Statement) (lines : List Line) → Accepts t s lines → Accepts t r lines → s ≡ r }
{}

/// Lines behind others begin where those end. So what begins a run is a run, and the rest is one from where that ends;
/// and the count is that of the lines.
pub fn runs()
    ensures append { (t : Theory) (st : State) (lines more : List Line)
        → run t st (lines ++ more) ≡ option_and_then (λ u. run t u more) (run t st lines) }
    ensures parts { (t : Theory) (st last : State) (lines more : List Line) → run t st (lines ++ more) ≡ Some last
        → (u : State) × (run t st lines ≡ Some u) × (run t u more ≡ Some last) }
    ensures count { (t : Theory) (st last : State) (lines : List Line) → run t st lines ≡ Some last
        → last.count ≡ st.count + length lines }
{}

/// The first bad line stands behind lines of which none is bad; and there is a run exactly where no line is bad.
pub fn first_bad_line()
    ensures number { (t : Theory) (st : State) (lines : List Line) (n : ℕ) → bad_from t st lines ≡ Some n
        → IsFirstBad t st lines n }
    ensures none { (t : Theory) (st : State) (lines : List Line) → bad_from t st lines ≡ None
        → (u : State) × (run t st lines ≡ Some u) }
    ensures run { (t : Theory) (st u : State) (lines : List Line) → run t st lines ≡ Some u
        → bad_from t st lines ≡ None }
{}

/// Along a move from a theory to another one lines are carried: a line says moved what it said, where what can be named
/// can be named moved; behind a line that isn't bad states match that matched before it. Of closed boxes only those
/// count whose result is an equation, and a cited statement of the theory is to be kept: so no constant of a box may
/// stand in it.
pub fn moved_lines()
    ensures says { (m : Move) (t u : Theory) → IsMove m t u → (h g : List Event) → NamesAlike m h g → (line : Line)
        → KeepsCited m t u line → (s : Statement) → judge t h line ≡ Some s
        → judge u g (moved_line m line) ≡ Some (renamed_statement m.renaming s) }
    ensures step { (m : Move) (t u : Theory) → IsMove m t u → (st su next : State) (line : Line)
        → KeepsCited m t u line → m.line (suc st.count) ≡ suc su.count → m.box (suc st.count) ≡ suc su.count
        → Matches m su.count st.history su.history → EndsAlike m st.history su.history → step t st line ≡ Some next
        → (other : State) × (step u su (moved_line m line) ≡ Some other) × Follows m next other (suc su.count) }
    ensures run { (m : Move) (t u : Theory) → IsMove m t u → (st su last : State) (lines : List Line)
        → EachLine (λ n line. KeepsCited m t u line) (suc st.count) lines
        → ((i : ℕ) → m.line (suc (st.count + i)) ≡ suc (su.count + i))
        → ((i : ℕ) → m.box (suc (st.count + i)) ≡ suc (su.count + i))
        → Matches m su.count st.history su.history → EndsAlike m st.history su.history → run t st lines ≡ Some last
        → (other : State) × (run u su (map (moved_line m) lines) ≡ Some other)
        × Matches m other.count last.history other.history × EndsAlike m last.history other.history }
{}

/// What matches still matches where a line is put in, and where a line says what another line up to the count said
/// before: so a line may be left out where what it says stands already under the number that takes its place.
pub fn lines_come_and_go()
    ensures put_in { (m : Move) (c : ℕ) (h g : List Event) (r : Statement) → Matches m c h g
        → Matches m (suc c) h (Said (suc c) r ∷ g) }
    ensures named { (m : Move) (c : ℕ) (h g : List Event) (n : ℕ) (s : Statement) → Matches m c h g
        → find_line g (m.line n) ≡ Some (renamed_statement m.renaming s) → m.line n ≤ c
        → Matches m c (Said n s ∷ h) g }
{}

/// What is accepted over a theory is accepted over each that it begins: with more operators and statements behind its
/// own, each line says what it said.
pub fn prefixes()
    ensures accepted { (t u : Theory) (s : Statement) (lines : List Line) → IsPrefix t u → Accepts t s lines
        → Accepts u s lines }
    ensures run { (t u : Theory) → IsPrefix t u → (st : State) (lines : List Line) (last : State)
        → run t st lines ≡ Some last → run u st lines ≡ Some last }
{}
