//! What holds of all flat traits, for crates above to cite. No function here does anything.
ghost use Rattle.std.specs.Prelude.{◌≡◌, ◌≤◌, ℕ, suc, true, false, bytes_eq, length, List, All, [], ◌∷◌, Ok};
ghost use Rattle.std.specs.Prelude.{nat_lt, ◌<◌, ◌≢◌, ◌↔◌, AllPairs, Contains, Err, Some};
ghost use Rattle.std.specs.Bool.{Decides};
ghost use Rattle.larch_base.specs.declared.fault.Fault.{Fault};
ghost use Rattle.larch_base.specs.declared.limits.TheConstants.{MAX_OPERATORS};
ghost use Rattle.std.specs.List.{list_any};
ghost use Rattle.larch_raw.specs.declared.declared.RawForm.{RawForm};
ghost use Rattle.larch_raw.specs.declared.equation.RawTrait.{RawTrait};
ghost use Rattle.larch_raw.specs.declared.reference.RawRef.{RawRef};
ghost use Rattle.larch_raw.specs.declared.reference.RawReference.{RawReference};
ghost use Rattle.larch_renaming.specs.Renaming.{FitsSignatures, KeepsBuiltIns};
ghost use Rattle.larch_term.specs.BuiltIn.{IsBuiltIn};
ghost use Rattle.larch_term.specs.Operator.{PlainOperator};
ghost use Rattle.larch_term.specs.Statement.{IsTheory};
ghost use Rattle.larch_shorthand.specs.SortsMeaningLaws.{OperatorSorts, StatementSorts, StatementVariables};
ghost use Rattle.larch_shorthand.specs.BaseMeaningWord.{IsWord};
ghost use Rattle.larch_flat_meaning.specs.Files.{Files, Reaches, closure, is_there, targets_in};
ghost use Rattle.larch_flat_meaning.specs.Flat.{FlatTrait, flat, flat_by, flat_file};
ghost use Rattle.larch_flat_meaning.specs.Flat.{take_flat, take_own, take_rest, theory_of};
ghost use Rattle.larch_flat_meaning.specs.Gathered.{Gathered, is_too_large, with_operators};
ghost use Rattle.larch_flat_meaning.specs.Laws.{AgreeFrom, AreAmong, AreWorded, IsInWords, IsKeptBy, IsStatedOver};
ghost use Rattle.larch_flat_meaning.specs.Laws.{IsTold, gathered_in};
ghost use Rattle.larch_flat_meaning.specs.Reach.{reach_count};
ghost use Rattle.larch_flat_meaning.specs.Reached.{AgreeOn, AreReached, Leads};
ghost use Rattle.larch_flat_meaning.specs.Replacements.{Replacements, new_operator, renaming, replacements_of};

/// References that are followed deeper tell no other answer.
pub fn deeper_tells_the_same()
    ensures each { (n limit : ℕ) (files : Files) (name : List ℕ)
        → IsKeptBy (flat_by n limit files name) (flat_by (suc n) (suc limit) files name) }
    ensures flat { (limit : ℕ) (files : Files) (name : List ℕ)
        → IsKeptBy (flat limit files name) (flat (suc limit) files name) }
{}

/// References that are followed as deep as there are files tell an answer.
pub fn files_are_deep_enough()
    ensures { (files : Files) (all : List (List ℕ)) → AreAmong files all → (limit : ℕ) → length all ≤ limit
        → (name : List ℕ) → IsTold (flat limit files name) }
{}

/// References that are followed as deep as there are files, or deeper, tell one answer.
pub fn depths_tell_the_same()
    ensures { (files : Files) (all : List (List ℕ)) → AreAmong files all → (limit other : ℕ) → length all ≤ limit
        → length all ≤ other → (name : List ℕ) → flat limit files name ≡ flat other files name }
{}

/// A flat trait is that of its text, where its references are followed just as deep.
pub fn flat_unfolds()
    ensures { (files : Files) (all : List (List ℕ)) → AreAmong files all → (limit : ℕ) → length all ≤ limit
        → (name : List ℕ) → flat limit files name ≡ flat_file (suc limit) files name (flat limit files) (files name) }
{}

/// As many rounds as there are files tell what a file leads to.
pub fn closures_are_told()
    ensures { (files : Files) (all : List (List ℕ)) → AreAmong files all → (limit : ℕ) → length all ≤ limit
        → (name : List ℕ) → is_there files name ≡ true
        → (ms : List (List ℕ)) × (closure files limit (name ∷ []) ≡ Ok ms) }
{}

/// A file leads to more files than one that it refers to and that doesn't lead back, and to no more than there are.
pub fn reach_falls()
    ensures reached { (files : Files) (all : List (List ℕ)) → AreAmong files all → (limit : ℕ) → length all ≤ limit
        → (name b : List ℕ) → Contains (targets_in (files name)) b → is_there files b ≡ true
        → (Reaches files b name → ⊥) → reach_count limit files b < reach_count limit files name }
    ensures told { (files : Files) (all : List (List ℕ)) → AreAmong files all → (limit : ℕ) → length all ≤ limit
        → (name b : List ℕ) → Contains (targets_in (files name)) b → is_there files b ≡ true
        → (n : ℕ) (ms : List (List ℕ)) → closure files n (b ∷ []) ≡ Ok ms → list_any (bytes_eq name) ms ≡ false
        → reach_count limit files b < reach_count limit files name }
    ensures bounded { (files : Files) (all : List (List ℕ)) → AreAmong files all → (limit : ℕ) (name : List ℕ)
        → is_there files name ≡ true → reach_count limit files name ≤ length all }
{}

/// A flat trait depends only on the files that its own leads to.
pub fn reached_files_decide()
    ensures each { (n limit : ℕ) (files other : Files) (name : List ℕ) → AgreeFrom files other name
        → flat_by n limit files name ≡ flat_by n limit other name }
    ensures flat { (limit : ℕ) (files other : Files) (name : List ℕ) → AgreeFrom files other name
        → flat limit files name ≡ flat limit other name }
{}

/// What is reached from a name over all references is what they lead to, each name once, in one order.
pub fn what_is_reached_is_led_to()
    ensures led { (files : Files) (name : List ℕ) (names : List (List ℕ)) → AreReached files name names
        → (m : List ℕ) → Contains names m ↔ Leads files name m }
    ensures different { (files : Files) (name : List ℕ) (names : List (List ℕ)) → AreReached files name names
        → AllPairs (λ a b. a ≢ b) names }
    ensures one { (files : Files) (name : List ℕ) (names others : List (List ℕ)) → AreReached files name names
        → AreReached files name others → names ≡ others }
{}

/// Where files agree on what is reached from a name, the same is reached in both, and the flat trait is the same.
pub fn what_is_reached_decides()
    ensures reached { (files other : Files) (name : List ℕ) (names : List (List ℕ)) → AreReached files name names
        → AgreeOn names files other → AreReached other name names }
    ensures agree { (files other : Files) (name : List ℕ) (names : List (List ℕ)) → AreReached files name names
        → AgreeOn names files other → (m : List ℕ) → Contains names m → AgreeFrom files other m }
    ensures flat { (files other : Files) (name : List ℕ) (names : List (List ℕ)) → AreReached files name names
        → AgreeOn names files other → (limit : ℕ) → flat limit files name ≡ flat limit other name }
{}

/// What is taken for a cycle is one: a name of a file is among those that another one leads to exactly where it is
/// reached from it.
pub fn closure_is_what_is_reached()
    ensures { (files : Files) (n : ℕ) (m name : List ℕ) (ms : List (List ℕ)) → closure files n (m ∷ []) ≡ Ok ms
        → is_there files name ≡ true → Decides (list_any (bytes_eq name) ms) (Reaches files m name) }
{}

/// What a reference replaces is a renaming that fits signatures and leaves what is built in alone, and no operator
/// becomes a built-in one by it.
pub fn no_operator_becomes_built_in()
    ensures fits { (by : Replacements) → FitsSignatures (renaming by) }
    ensures keeps { (fs : List PlainOperator) (formals : List RawForm) (ref : RawRef) (by : Replacements)
        → replacements_of fs formals ref ≡ Ok by → KeepsBuiltIns (renaming by) }
    ensures own { (fs : List PlainOperator) (formals : List RawForm) (ref : RawRef) (by : Replacements)
        → replacements_of fs formals ref ≡ Ok by → All (λ f. IsBuiltIn (new_operator by f) → ⊥) fs }
{}

/// What is gathered is within the limits after each reference, and so is each flat trait.
pub fn sizes_are_bounded()
    ensures reference { (r : RawReference) (g h : Gathered) (t : FlatTrait) → take_flat r g t ≡ Ok h
        → is_too_large h ≡ false }
    ensures rest { (raw : RawTrait) (g : Gathered) (t : FlatTrait) → take_rest raw g ≡ Ok t
        → is_too_large (gathered_in t) ≡ false }
{}

/// The theory of a flat trait is a theory, where all files are written with words.
pub fn flat_trait_is_a_theory()
    ensures { (files : Files) → AreWorded files → (limit : ℕ) (name : List ℕ) (t : FlatTrait)
        → flat limit files name ≡ Ok t → IsTheory (theory_of t) }
{}

/// Each statement of a flat trait, and each that is to be discharged, is well sorted over its operators; its clauses
/// name these alone, and each sort in it is Bool or stands in one of them.
pub fn flat_trait_names_its_own()
    ensures stated { (files : Files) → AreWorded files → (limit : ℕ) (name : List ℕ) (t : FlatTrait)
        → flat limit files name ≡ Ok t → All (IsStatedOver t.operators) (theory_of t).statements }
    ensures discharge { (files : Files) → AreWorded files → (limit : ℕ) (name : List ℕ) (t : FlatTrait)
        → flat limit files name ≡ Ok t → All (IsStatedOver t.operators) t.discharge }
{}

/// A flat trait has the text of its file.
pub fn flat_traits_keep_their_texts()
    ensures { (limit : ℕ) (files : Files) (name : List ℕ) (t : FlatTrait) → flat limit files name ≡ Ok t
        → files name ≡ Some (Ok t.raw) }
{}

/// Each sort and each variable in a flat trait, and in what is to be discharged, is a word, where all files are written
/// with words.
pub fn flat_traits_are_in_words()
    ensures operators { (files : Files) → AreWorded files → (limit : ℕ) (name : List ℕ) (t : FlatTrait)
        → flat limit files name ≡ Ok t → All (OperatorSorts IsWord) t.operators }
    ensures sorts { (files : Files) → AreWorded files → (limit : ℕ) (name : List ℕ) (t : FlatTrait)
        → flat limit files name ≡ Ok t → All (StatementSorts IsWord) (theory_of t).statements }
    ensures variables { (files : Files) → AreWorded files → (limit : ℕ) (name : List ℕ) (t : FlatTrait)
        → flat limit files name ≡ Ok t → All (StatementVariables IsWord) (theory_of t).statements }
    ensures discharge { (files : Files) → AreWorded files → (limit : ℕ) (name : List ℕ) (t : FlatTrait)
        → flat limit files name ≡ Ok t → All IsInWords t.discharge }
{}

/// Once there are too many operators SIZE is certain, unless something else is wrong before it; and what that is
/// doesn't depend on the statements that were gathered. So they need not be built.
pub fn too_many_operators_are_certain()
    ensures grow { (fs : List PlainOperator) (g : Gathered)
        → length g.operators ≤ length (with_operators fs g).operators }
    ensures size { (g : Gathered) → nat_lt MAX_OPERATORS (length g.operators) ≡ true → is_too_large g ≡ true }
    ensures refused { (raw : RawTrait) (g h : Gathered) (f : Fault) → g.operators ≡ h.operators
        → take_own raw g ≡ Err f → take_own raw h ≡ Err f }
{}
