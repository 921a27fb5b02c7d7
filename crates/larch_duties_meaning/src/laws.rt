//! What holds of all duties, for crates above to cite. No function here does anything.
ghost use Rattle.std.specs.Prelude.{◌≡◌, ◌≤◌, ℕ, length, map, List, All, Contains, Ok};
ghost use Rattle.larch_calculus.specs.Renaming.{HasPlainNames};
ghost use Rattle.larch_flat_meaning.specs.Files.{Files};
ghost use Rattle.larch_flat_meaning.specs.Flat.{FlatTrait, flat};
ghost use Rattle.larch_flat_meaning.specs.Laws.{AreAmong, AreWorded, IsTold};
ghost use Rattle.larch_flat_meaning.specs.Reached.{AgreeOn, AreReached};
ghost use Rattle.larch_duties_meaning.specs.Claims.{Claim, claims_in, duty_of};
ghost use Rattle.larch_duties_meaning.specs.Duties.{Duties, all_duties, duties, duties_named};
ghost use Rattle.larch_duties_meaning.specs.Laws.{IsDutyInWords, IsSoundDuty};

/// The theory of each duty is a theory, and its statement is well sorted over the theory's operators, where all files
/// are written with words; clauses in both name these operators alone, and each sort in both is Bool or stands in one
/// of them.
pub fn duties_are_sound()
    ensures { (files : Files) → AreWorded files → (limit : ℕ) (name : List ℕ) (own : FlatTrait) (d : Duties)
        → flat limit files name ≡ Ok own → duties limit files own ≡ Ok d → All IsSoundDuty (all_duties d) }
{}

/// Each sort and each variable in a duty, in its theory and in its statement, is a word, where all files are written
/// with words.
pub fn duties_are_in_words()
    ensures { (files : Files) → AreWorded files → (limit : ℕ) (name : List ℕ) (own : FlatTrait) (d : Duties)
        → flat limit files name ≡ Ok own → duties limit files own ≡ Ok d → All IsDutyInWords (all_duties d) }
{}

/// No operator of a duty's theory has the name of a constant of a box.
pub fn duties_have_plain_names()
    ensures { (files : Files) (limit : ℕ) (name : List ℕ) (own : FlatTrait) (d : Duties)
        → flat limit files name ≡ Ok own → duties limit files own ≡ Ok d
        → All (λ duty. HasPlainNames duty.theory) (all_duties d) }
{}

/// References that are followed as deep as there are files tell the duties of a trait, or what is wrong with them.
pub fn duties_are_told()
    ensures { (files : Files) (all : List (List ℕ)) → AreAmong files all → (limit : ℕ) → length all ≤ limit
        → (own : FlatTrait) → IsTold (duties limit files own) }
{}

/// Where files agree on what is reached from a name, the duties of its trait are the same, and what is wrong with them;
/// and it doesn't matter how deep references are followed, if they are followed as deep as there are files. So it
/// doesn't matter how many files there are.
pub fn what_is_reached_decides_duties()
    ensures same { (files other : Files) (name : List ℕ) (names : List (List ℕ)) → AreReached files name names
        → AgreeOn names files other → (limit : ℕ) → duties_named limit files name ≡ duties_named limit other name }
    ensures depths { (files : Files) (all : List (List ℕ)) → AreAmong files all → (limit other : ℕ) → length all ≤ limit
        → length all ≤ other → (name : List ℕ) → duties_named limit files name ≡ duties_named other files name }
    ensures elsewhere { (files other : Files) (all others : List (List ℕ)) → AreAmong files all → AreAmong other others
        → (name : List ℕ) (names : List (List ℕ)) → AreReached files name names → AgreeOn names files other
        → (limit deep : ℕ) → length all ≤ limit → length others ≤ deep
        → duties_named limit files name ≡ duties_named deep other name }
{}

/// Duties with the numbers of their clauses are the duties, in order.
pub fn claims_are_duties()
    ensures { (d : Duties) → map duty_of (claims_in d) ≡ all_duties d }
{}

/// Duties of one clause have one theory, and so have those of none: it need be looked at once.
pub fn clauses_have_one_theory()
    ensures { (limit : ℕ) (files : Files) (own : FlatTrait) (d : Duties) → duties limit files own ≡ Ok d
        → (c e : Claim) → Contains (claims_in d) c → Contains (claims_in d) e → c.clause ≡ e.clause
        → c.theory ≡ e.theory }
{}
