//! What holds of the duties of what is read of files, for crates above to cite. No function here does anything.
ghost use Rattle.std.specs.Prelude.{◌≡◌, ℕ, suc, List, All, Ok, Some, slice_get};
ghost use Rattle.larch_base.specs.declared.label.Label.TheVariants.{Assume, Imply};
ghost use Rattle.larch_duties_meaning.specs.CalculusRenaming.{HasPlainNames};
ghost use Rattle.larch_flat_meaning.specs.Gathered.{Gathered};
ghost use Rattle.larch_flat_meaning.specs.Laws.{AreWorded, IsInWords, IsTheoryInWords};
ghost use Rattle.larch_flat_meaning.specs.Reached.{AgreeOn, AreReached};
ghost use Rattle.larch_duties_meaning.specs.Claims.{Claim, duty_of};
ghost use Rattle.larch_duties_meaning.specs.Duties.{Duties, all_duties};
ghost use Rattle.larch_duties_meaning.specs.Laws.{IsDutyInWords, IsSoundDuty};
ghost use Rattle.larch_flat.specs.FlatSourcesSources.{Table, files_in};
ghost use Rattle.larch_flat.specs.Parts.{IsFlat};
ghost use Rattle.larch_duties.specs.Kept.{theory_in};
ghost use Rattle.larch_duties.specs.Own.{IsDutyOf, trait_own_claims};
ghost use Rattle.larch_duties.specs.TraitDuties.{trait_claims, trait_duties};
ghost use Rattle.larch_duties.specs.declared.own.OwnClaims.{OwnClaims};
ghost use Rattle.larch_term.specs.declared.statement.Statement.{Statement};

/// Where all files are written with words, each sort and each variable is one in the theory of a trait of which
/// something is known, in what is to be discharged, and in each duty, as it is worked out and as it is kept, in its
/// theory and in its statement.
pub fn claims_are_in_words()
    ensures theory { (sources : Table) → AreWorded (files_in sources) → (name : List ℕ) (g : Gathered)
        → IsFlat sources name (Ok g) → IsTheoryInWords (theory_in g) }
    ensures discharge { (sources : Table) → AreWorded (files_in sources) → (name : List ℕ) (g : Gathered)
        → IsFlat sources name (Ok g) → All IsInWords g.discharge }
    ensures duties { (sources : Table) → AreWorded (files_in sources) → (name : List ℕ) (d : Duties)
        → trait_duties sources name ≡ Ok d → All IsDutyInWords (all_duties d) }
    ensures claims { (sources : Table) → AreWorded (files_in sources) → (name : List ℕ) (cs : List Claim)
        → trait_claims sources name ≡ Ok cs → All (λ c. IsDutyInWords (duty_of c)) cs }
{}

/// Where all files are written with words, each duty as it is kept is sound: its theory is a theory of plain names, and
/// its statement is one over it.
pub fn claims_are_sound()
    ensures sound { (sources : Table) → AreWorded (files_in sources) → (name : List ℕ) (cs : List Claim)
        → trait_claims sources name ≡ Ok cs → All (λ c. IsSoundDuty (duty_of c)) cs }
    ensures plain { (sources : Table) (name : List ℕ) (cs : List Claim)
        → trait_claims sources name ≡ Ok cs → All (λ c. HasPlainNames c.theory) cs }
{}

/// The duties of a trait, or what is wrong first, are the same among others that say the same of all that is reached
/// from it, however many files there are.
pub fn what_is_reached_decides_claims()
    ensures duties { (sources others : Table) (name : List ℕ) (names : List (List ℕ))
        → AreReached (files_in sources) name names → AgreeOn names (files_in sources) (files_in others)
        → trait_duties sources name ≡ trait_duties others name }
    ensures claims { (sources others : Table) (name : List ℕ) (names : List (List ℕ))
        → AreReached (files_in sources) name names → AgreeOn names (files_in sources) (files_in others)
        → trait_claims sources name ≡ trait_claims others name }
{}

/// What a trait claims over its own theory are its duties: the statement at a place is that of the first duty with the
/// label of its number, and the theory is that duty's.
pub fn own_claims_are_duties()
    ensures assumed { (sources : Table) (name : List ℕ) (own : OwnClaims) → trait_own_claims sources name ≡ Ok own
        → (place : ℕ) (s : Statement) → slice_get own.assumed place ≡ Some s
        → IsDutyOf sources name own (Assume (suc place)) s }
    ensures implied { (sources : Table) (name : List ℕ) (own : OwnClaims) → trait_own_claims sources name ≡ Ok own
        → (place : ℕ) (s : Statement) → slice_get own.implied place ≡ Some s
        → IsDutyOf sources name own (Imply (suc place)) s }
{}
